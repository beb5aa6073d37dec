// First come, first served.
ghost use Rattle.own_rules.specs.FirstCome.{came_first};
ghost use Rattle.std.proofs.Common.{rules};

use ranking::Ranking;
use ranking::offer::Offer;

// The lower number is ahead, whatever the price.
#[derive(Clone, Copy)]
pub struct FirstCome;

impl Ranking for FirstCome {
    ghost ahead = { λ _. came_first };

    ghost irreflexive = { Prim.search rules };

    ghost decided = { Prim.search rules };

    ghost transitive = { Prim.search rules };

    fn is_ahead(&self, first: &Offer, second: &Offer) -> bool {
        first.number < second.number
    }
}
