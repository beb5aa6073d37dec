// Who stands behind a resting order.
ghost use Rattle.std.specs.Prelude.{◌≡◌};
ghost use Rattle.resting.specs.Parties.{party_of};

use crate::resident::Resident;
use orders::party::Party;

// The order's party, as a policy sees it.
impl From<&Resident> for Party {
    ghost from_gives = { λ order party. party ≡ party_of order.now };

    fn from(order: &Resident) -> Party {
        Party {
            client: order.client,
            category: order.category,
            capacity: order.terms.capacity,
            style: order.terms.style,
        }
    }
}
