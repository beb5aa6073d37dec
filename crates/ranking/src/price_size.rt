// Price, then size, then time.
ghost use Rattle.ranking.specs.Rankings.{price_size};
ghost use Rattle.std.proofs.Common.{rules};

use crate::Ranking;
use crate::offer::Offer;
use std::cmp::Reverse;

// The keener offer is ahead; of two that are equally keen, the one with more shares left; of two that are equal in that too, the one with the lower number.
#[derive(Clone, Copy)]
pub struct PriceSize;

impl Ranking for PriceSize {
    ghost ahead = { λ _. price_size };

    ghost irreflexive = { Prim.search rules };

    ghost decided = { Prim.search rules };

    ghost transitive = { Prim.search rules };

    fn is_ahead(&self, first: &Offer, second: &Offer) -> bool {
        let key = |offer: &Offer| (Reverse(offer.keenness), Reverse(offer.left), offer.number);
        key(first) < key(second)
    }
}
