// Who may meet whom: what every policy means, and the policies that brokers use.
#![tactic(auto)]

ghost use Rattle.std.specs.Prelude.{◌≡◌, Bool};
ghost use Rattle.orders.specs.declared.party.Party.{Party};

use orders::party::Party;

pub mod bans;
pub mod grid;
pub mod refusal;
pub mod styles;

// A policy is a set of allowed pairs of parties. A broker's own policy gives its set, shows the law and answers the question; whatever is proved of policies then holds of it.
pub trait Policy {
    // the pair is in the set, by what the policy holds now
    ghost allowed: { Self → Party → Party → Bool };

    // Whether the pair is allowed. Nothing changes.
    fn allows(&self, p: &Party, q: &Party) -> bool
        ensures { result ≡ allowed self.now p.now q.now };

    // a pair is allowed exactly when the turned pair is
    ghost symmetric: { (s : Self) (p q : Party) → allowed s p q ≡ allowed s q p };
}
