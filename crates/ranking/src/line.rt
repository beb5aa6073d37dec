// Where an offer stands in line.
ghost use Rattle.std.specs.Prelude.{◌≡◌};
ghost use Rattle.ranking.specs.Rankings.{ahead_of, InFront};

use crate::Ranking;
use crate::offer::Offer;

// How many of the offers are ahead of this one. At place 0 it is ahead of all others, whatever the ranking.
pub fn place_in_line<R: Ranking>(ranking: &R, offers: &[Offer], offer: &Offer) -> usize
    ensures count { result ≡ ahead_of (R.ahead ranking.now) offers.now offer.now }
    ensures front { result ≡ 0 → InFront (R.ahead ranking.now) offers.now offer.now }
{
    // A plain loop: `filter` and `count` (tried) took up to twice the time.
    let mut place = 0;
    for other in offers {
        if ranking.is_ahead(other, offer) {
            place += 1;
        }
    }
    place
}
