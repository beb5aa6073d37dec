// The values of coded fields in words.
ghost use Rattle.std.specs.Prelude.{◌≡◌, ℕ, List};
ghost use Rattle.words.specs.Fields.{side_words, capacity_words, style_words, peg_words, constraint_words, leaves_words, time_words, lots_words, grade_words, kind_words, letter_words};

use orders::fields::{
    Capacity, Constraint, CrossStyle, InviteGrade, LeavesMode, Lots, Peg, Side, TimeInForce,
};
use orders::slip::{Letter, SlipKind};

// A coded value that people read as words. No `Display`: the types are of a crate below, which has no words for people.
pub(crate) trait InWords {
    ghost words: { Self → List ℕ };

    fn words(self) -> &'static str
        ensures { result.now ≡ words self };
}

impl InWords for Side {
    ghost words = { side_words };

    fn words(self) -> &'static str {
        match self {
            Side::Buy => "buy",
            Side::Sell => "sell",
            Side::SellShort => "sell short",
            Side::SellShortExempt => "sell short exempt",
        }
    }
}

impl InWords for Capacity {
    ghost words = { capacity_words };

    fn words(self) -> &'static str {
        match self {
            Capacity::Agency => "agency",
            Capacity::Principal => "principal",
        }
    }
}

impl InWords for CrossStyle {
    ghost words = { style_words };

    fn words(self) -> &'static str {
        match self {
            CrossStyle::All => "with anyone",
            CrossStyle::AgencyOnly => "no principals",
            CrossStyle::NoSelf => "not with the same client",
            CrossStyle::AgencyNoSelf => "no principals, not with the same client",
            CrossStyle::AllNotFive => "not with source category 5",
            CrossStyle::AgencyNotFive => "no principals, not with source category 5",
            CrossStyle::NoSelfNotFive => "not with the same client, not with source category 5",
            CrossStyle::AgencyNoSelfNotFive =>
                "no principals, not with the same client, not with source category 5",
        }
    }
}

impl InWords for Peg {
    ghost words = { peg_words };

    fn words(self) -> &'static str {
        match self {
            Peg::Midpoint => "midpoint",
            Peg::Unpegged => "no peg",
            Peg::Primary => "primary",
        }
    }
}

impl InWords for Constraint {
    ghost words = { constraint_words };

    fn words(self) -> &'static str {
        match self {
            Constraint::Unstated => "not stated",
            Constraint::FillToLimit => "fill to the limit",
            Constraint::FillToMidpoint => "fill to the midpoint",
        }
    }
}

// What becomes of the minimum once fewer shares are left.
impl InWords for LeavesMode {
    ghost words = { leaves_words };

    fn words(self) -> &'static str {
        match self {
            LeavesMode::NotStated => "not stated",
            LeavesMode::DropMinimum => "with fewer left, no minimum",
            LeavesMode::LowerMinimum => "with fewer left, all that is left",
            LeavesMode::CancelRest => "with fewer left, cancel the rest",
        }
    }
}

impl InWords for TimeInForce {
    ghost words = { time_words };

    fn words(self) -> &'static str {
        match self {
            TimeInForce::Immediate => "immediate or cancel",
            TimeInForce::MarketHours => "market hours",
        }
    }
}

impl InWords for Lots {
    ghost words = { lots_words };

    fn words(self) -> &'static str {
        match self {
            Lots::RoundOnly => "round lots only",
            Lots::AnyLot => "any lot",
        }
    }
}

// Which conditional indications the order invites.
impl InWords for InviteGrade {
    ghost words = { grade_words };

    fn words(self) -> &'static str {
        match self {
            InviteGrade::Nobody => "nobody",
            InviteGrade::Anyone => "everybody",
            InviteGrade::FromMedium => "scores from medium up",
            InviteGrade::FromHigh => "scores from high up",
            InviteGrade::HouseOnly => "the house's algorithms only",
        }
    }
}

impl InWords for SlipKind {
    ghost words = { kind_words };

    fn words(self) -> &'static str {
        match self {
            SlipKind::Accepted => "accepted",
            SlipKind::Replaced => "replaced",
            SlipKind::Executed => "executed",
            SlipKind::Cancelled => "cancelled",
            SlipKind::CancelRejected => "cancel rejected",
            SlipKind::Rejected => "rejected",
        }
    }
}

impl InWords for Letter {
    ghost words = { letter_words };

    fn words(self) -> &'static str {
        match self {
            Letter::Blank => "none",
            Letter::Live => "the order lives",
            Letter::Added => "added liquidity",
            Letter::Removed => "removed liquidity",
            Letter::ImmediateRest => "immediate or cancel, not traded",
            Letter::UserRequest => "the client asked for it",
            Letter::BelowMinimum => "fewer shares left than the minimum",
            Letter::UnknownStock => "unknown stock",
            Letter::TooManyShares => "too many shares",
            Letter::BadMinimum => "wrong minimum",
            Letter::BadPrice => "wrong price",
            Letter::Other => "other",
        }
    }
}
