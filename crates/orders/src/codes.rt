// The byte or number that stands for each value of a coded field, and the value that a byte or number stands for.
// Two tables for each type, read side by side: discriminants would put the wire into the subject's types, and one search through lists of values for all types would show no byte beside its value.
ghost use Rattle.std.specs.Prelude.{◌≡◌, Some, codes};
ghost use Rattle.std.specs.Result.{result_ok};
ghost use Rattle.orders.specs.Codes.{side_byte, side_of, capacity_byte, capacity_of, style_byte, style_of, peg_byte, peg_of, constraint_byte, constraint_of, leaves_byte, leaves_of, lots_byte, lots_of, grade_number, grade_of, time_number, time_of, category_number, category_of, kind_byte, letter_byte};

use crate::fields::{
    Capacity, Constraint, CrossStyle, InviteGrade, LeavesMode, Lots, Peg, Side, TimeInForce,
};
use crate::party::Category;
use crate::slip::{Letter, SlipKind};
use std::error::Error;
use std::fmt;

// A byte or number that stands for no value of its field.
#[derive(Clone, Copy, PartialEq, Eq, Debug)]
pub struct Unlisted;

impl fmt::Display for Unlisted {
    ghost output = { λ _. Some (codes "a number that stands for no value of its field") };

    fn fmt<W: fmt::Write>(&self, f: &mut fmt::Formatter<W>) -> fmt::Result {
        f.write_str("a number that stands for no value of its field")
    }
}

impl Error for Unlisted {}

impl From<Side> for u8 {
    ghost from_gives = { λ v n. n ≡ side_byte v };

    fn from(side: Side) -> u8 {
        match side {
            Side::Buy => b'B',
            Side::Sell => b'S',
            Side::SellShort => b'T',
            Side::SellShortExempt => b'E',
        }
    }
}

impl TryFrom<u8> for Side {
    type Error = Unlisted;

    ghost try_from_gives = { λ n r. result_ok r ≡ side_of n };

    fn try_from(byte: u8) -> Result<Side, Unlisted> {
        match byte {
            b'B' => Ok(Side::Buy),
            b'S' => Ok(Side::Sell),
            b'T' => Ok(Side::SellShort),
            b'E' => Ok(Side::SellShortExempt),
            _ => Err(Unlisted),
        }
    }
}

impl From<Capacity> for u8 {
    ghost from_gives = { λ v n. n ≡ capacity_byte v };

    fn from(capacity: Capacity) -> u8 {
        match capacity {
            Capacity::Agency => b'A',
            Capacity::Principal => b'P',
        }
    }
}

impl TryFrom<u8> for Capacity {
    type Error = Unlisted;

    ghost try_from_gives = { λ n r. result_ok r ≡ capacity_of n };

    fn try_from(byte: u8) -> Result<Capacity, Unlisted> {
        match byte {
            b'A' => Ok(Capacity::Agency),
            b'P' => Ok(Capacity::Principal),
            _ => Err(Unlisted),
        }
    }
}

impl From<CrossStyle> for u8 {
    ghost from_gives = { λ v n. n ≡ style_byte v };

    fn from(style: CrossStyle) -> u8 {
        match style {
            CrossStyle::All => b'1',
            CrossStyle::AgencyOnly => b'3',
            CrossStyle::NoSelf => b'4',
            CrossStyle::AgencyNoSelf => b'5',
            CrossStyle::AllNotFive => b'S',
            CrossStyle::AgencyNotFive => b'T',
            CrossStyle::NoSelfNotFive => b'V',
            CrossStyle::AgencyNoSelfNotFive => b'U',
        }
    }
}

impl TryFrom<u8> for CrossStyle {
    type Error = Unlisted;

    ghost try_from_gives = { λ n r. result_ok r ≡ style_of n };

    fn try_from(byte: u8) -> Result<CrossStyle, Unlisted> {
        match byte {
            b'1' => Ok(CrossStyle::All),
            b'3' => Ok(CrossStyle::AgencyOnly),
            b'4' => Ok(CrossStyle::NoSelf),
            b'5' => Ok(CrossStyle::AgencyNoSelf),
            b'S' => Ok(CrossStyle::AllNotFive),
            b'T' => Ok(CrossStyle::AgencyNotFive),
            b'V' => Ok(CrossStyle::NoSelfNotFive),
            b'U' => Ok(CrossStyle::AgencyNoSelfNotFive),
            _ => Err(Unlisted),
        }
    }
}

impl From<Peg> for u8 {
    ghost from_gives = { λ v n. n ≡ peg_byte v };

    fn from(peg: Peg) -> u8 {
        match peg {
            Peg::Midpoint => b'M',
            Peg::Unpegged => b'N',
            Peg::Primary => b'R',
        }
    }
}

impl TryFrom<u8> for Peg {
    type Error = Unlisted;

    ghost try_from_gives = { λ n r. result_ok r ≡ peg_of n };

    fn try_from(byte: u8) -> Result<Peg, Unlisted> {
        match byte {
            b'M' => Ok(Peg::Midpoint),
            b'N' => Ok(Peg::Unpegged),
            b'R' => Ok(Peg::Primary),
            _ => Err(Unlisted),
        }
    }
}

impl From<Constraint> for u8 {
    ghost from_gives = { λ v n. n ≡ constraint_byte v };

    fn from(constraint: Constraint) -> u8 {
        match constraint {
            Constraint::Unstated => b' ',
            Constraint::FillToLimit => b'1',
            Constraint::FillToMidpoint => b'2',
        }
    }
}

impl TryFrom<u8> for Constraint {
    type Error = Unlisted;

    ghost try_from_gives = { λ n r. result_ok r ≡ constraint_of n };

    fn try_from(byte: u8) -> Result<Constraint, Unlisted> {
        match byte {
            b' ' => Ok(Constraint::Unstated),
            b'1' => Ok(Constraint::FillToLimit),
            b'2' => Ok(Constraint::FillToMidpoint),
            _ => Err(Unlisted),
        }
    }
}

impl From<LeavesMode> for u8 {
    ghost from_gives = { λ v n. n ≡ leaves_byte v };

    fn from(mode: LeavesMode) -> u8 {
        match mode {
            LeavesMode::NotStated => b' ',
            LeavesMode::DropMinimum => b'1',
            LeavesMode::LowerMinimum => b'2',
            LeavesMode::CancelRest => b'3',
        }
    }
}

impl TryFrom<u8> for LeavesMode {
    type Error = Unlisted;

    ghost try_from_gives = { λ n r. result_ok r ≡ leaves_of n };

    fn try_from(byte: u8) -> Result<LeavesMode, Unlisted> {
        match byte {
            b' ' => Ok(LeavesMode::NotStated),
            b'1' => Ok(LeavesMode::DropMinimum),
            b'2' => Ok(LeavesMode::LowerMinimum),
            b'3' => Ok(LeavesMode::CancelRest),
            _ => Err(Unlisted),
        }
    }
}

impl From<Lots> for u8 {
    ghost from_gives = { λ v n. n ≡ lots_byte v };

    fn from(lots: Lots) -> u8 {
        match lots {
            Lots::RoundOnly => b'Y',
            Lots::AnyLot => b'N',
        }
    }
}

impl TryFrom<u8> for Lots {
    type Error = Unlisted;

    ghost try_from_gives = { λ n r. result_ok r ≡ lots_of n };

    fn try_from(byte: u8) -> Result<Lots, Unlisted> {
        match byte {
            b'Y' => Ok(Lots::RoundOnly),
            b'N' => Ok(Lots::AnyLot),
            _ => Err(Unlisted),
        }
    }
}

impl From<InviteGrade> for u8 {
    ghost from_gives = { λ v n. n ≡ grade_number v };

    fn from(grade: InviteGrade) -> u8 {
        match grade {
            InviteGrade::Nobody => 0,
            InviteGrade::Anyone => 1,
            InviteGrade::FromMedium => 2,
            InviteGrade::FromHigh => 3,
            InviteGrade::HouseOnly => 4,
        }
    }
}

impl TryFrom<u8> for InviteGrade {
    type Error = Unlisted;

    ghost try_from_gives = { λ n r. result_ok r ≡ grade_of n };

    fn try_from(number: u8) -> Result<InviteGrade, Unlisted> {
        match number {
            0 => Ok(InviteGrade::Nobody),
            1 => Ok(InviteGrade::Anyone),
            2 => Ok(InviteGrade::FromMedium),
            3 => Ok(InviteGrade::FromHigh),
            4 => Ok(InviteGrade::HouseOnly),
            _ => Err(Unlisted),
        }
    }
}

impl From<TimeInForce> for u32 {
    ghost from_gives = { λ v n. n ≡ time_number v };

    fn from(time: TimeInForce) -> u32 {
        match time {
            TimeInForce::Immediate => 0,
            TimeInForce::MarketHours => 99998,
        }
    }
}

impl TryFrom<u32> for TimeInForce {
    type Error = Unlisted;

    ghost try_from_gives = { λ n r. result_ok r ≡ time_of n };

    fn try_from(number: u32) -> Result<TimeInForce, Unlisted> {
        match number {
            0 => Ok(TimeInForce::Immediate),
            99998 => Ok(TimeInForce::MarketHours),
            _ => Err(Unlisted),
        }
    }
}

impl From<Category> for u8 {
    ghost from_gives = { λ v n. n ≡ category_number v };

    fn from(category: Category) -> u8 {
        match category {
            Category::One => 1,
            Category::Two => 2,
            Category::Three => 3,
            Category::Four => 4,
            Category::Five => 5,
        }
    }
}

impl TryFrom<u8> for Category {
    type Error = Unlisted;

    ghost try_from_gives = { λ n r. result_ok r ≡ category_of n };

    fn try_from(number: u8) -> Result<Category, Unlisted> {
        match number {
            1 => Ok(Category::One),
            2 => Ok(Category::Two),
            3 => Ok(Category::Three),
            4 => Ok(Category::Four),
            5 => Ok(Category::Five),
            _ => Err(Unlisted),
        }
    }
}

impl From<SlipKind> for u8 {
    ghost from_gives = { λ v n. n ≡ kind_byte v };

    fn from(kind: SlipKind) -> u8 {
        match kind {
            SlipKind::Accepted => b'a',
            SlipKind::Replaced => b'u',
            SlipKind::Executed => b'E',
            SlipKind::Cancelled => b'C',
            SlipKind::CancelRejected => b'I',
            SlipKind::Rejected => b'J',
        }
    }
}

impl From<Letter> for u8 {
    ghost from_gives = { λ v n. n ≡ letter_byte v };

    fn from(letter: Letter) -> u8 {
        match letter {
            Letter::Blank => b' ',
            Letter::Live => b'L',
            Letter::Added => b'A',
            Letter::Removed => b'R',
            Letter::ImmediateRest => b'I',
            Letter::UserRequest => b'U',
            Letter::BelowMinimum => b'M',
            Letter::UnknownStock => b'S',
            Letter::TooManyShares => b'Z',
            Letter::BadMinimum => b'N',
            Letter::BadPrice => b'X',
            Letter::Other => b'K',
        }
    }
}
