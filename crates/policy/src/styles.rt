// Styles: each order's cross style says whom it bars.
ghost use Rattle.std.specs.Prelude.{◌≡◌, not};
ghost use Rattle.policy.specs.Styles.{bars, styles_allow};
ghost use Rattle.std.proofs.Math.Bool.{and_comm};

use crate::Policy;
use orders::fields::{Capacity, CrossStyle};
use orders::party::{Category, Party};

// Holds nothing: a pair is allowed when neither party's style bars the other party.
#[derive(Clone, Copy)]
pub struct Styles;

// Whether the party's style bars the other party.
fn is_barred(party: &Party, other: &Party) -> bool
    ensures { result ≡ bars party.now other.now }
{
    let principal = other.capacity == Capacity::Principal;
    let itself = other.client == party.client;
    let five = other.category == Category::Five;
    match party.style {
        CrossStyle::All => false,
        CrossStyle::AgencyOnly => principal,
        CrossStyle::NoSelf => itself,
        CrossStyle::AgencyNoSelf => principal || itself,
        CrossStyle::AllNotFive => five,
        CrossStyle::AgencyNotFive => principal || five,
        CrossStyle::NoSelfNotFive => itself || five,
        CrossStyle::AgencyNoSelfNotFive => principal || itself || five,
    }
}

impl Policy for Styles {
    ghost allowed = { λ _. styles_allow };

    ghost symmetric = { λ s p q. and_comm (not (bars p q)) (not (bars q p)) };

    fn allows(&self, p: &Party, q: &Party) -> bool {
        !is_barred(p, q) && !is_barred(q, p)
    }
}
