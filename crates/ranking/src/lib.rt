// Who goes ahead: what every ranking means, and the rankings that brokers use.
#![tactic(auto)]

ghost use Rattle.std.specs.Prelude.{◌≡◌, Bool, true, false, not, ◌≢◌};
ghost use Rattle.ranking.specs.declared.offer.Offer.{Offer};

use crate::offer::Offer;

pub mod line;
pub mod offer;
pub mod price_size;
pub mod price_time;
#[cfg(test)]
mod tests;

// A ranking is a relation between offers. A broker's own ranking gives its relation, shows the three laws and answers the question; whatever is proved of rankings then holds of it.
// Each ranking is an impl of its own and not an instance of one impl by key: that would ask of each a ghost key, a law that different numbers have different keys and a proof that its relation is the order of the keys, where now the search finds the three laws.
pub trait Ranking {
    // the first offer is ahead of the second, by what the ranking holds now
    ghost ahead: { Self → Offer → Offer → Bool };

    // Whether the first offer is ahead of the second. Nothing changes.
    fn is_ahead(&self, first: &Offer, second: &Offer) -> bool
        ensures { result ≡ ahead self.now first.now second.now };

    // no offer is ahead of itself
    ghost irreflexive: { (s : Self) (a : Offer) → ahead s a a ≡ false };

    // of two offers with different numbers exactly one is ahead of the other
    ghost decided: { (s : Self) (a b : Offer) → (a.number ≢ b.number) → ahead s a b ≡ not (ahead s b a) };

    // over three different numbers, who is ahead of one that is ahead of a third is ahead of the third
    ghost transitive: { (s : Self) (a b c : Offer) → (a.number ≢ b.number) → (b.number ≢ c.number) → (a.number ≢ c.number) → ahead s a b ≡ true → ahead s b c ≡ true → ahead s a c ≡ true };
}
