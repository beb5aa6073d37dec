// An example of each answer.
use crate::slip::SlipWords;
use orders::fields::{
    Capacity, Constraint, CrossStyle, InviteGrade, LeavesMode, Lots, Peg, Side, Terms, TimeInForce,
};
use orders::slip::{Letter, OldOrder, Slip, SlipKind};
use session::hex::Hex;
use std::fmt;
use ubp::write_slip::write_slip;

// Room for the longest answer.
const ROOM: usize = 98;

const TERMS: Terms = Terms {
    side: Side::Buy,
    stock: *b"IBM   ",
    time: TimeInForce::MarketHours,
    firm: *b"ACME",
    capacity: Capacity::Agency,
    minimum: 100,
    constraint: Constraint::Unstated,
    leaves: LeavesMode::NotStated,
    style: CrossStyle::NoSelf,
    peg: Peg::Midpoint,
    grade: InviteGrade::FromMedium,
    lots: Lots::AnyLot,
};

const ACCEPTED: Slip = Slip {
    kind: SlipKind::Accepted,
    clock: 34200000000123,
    client: 7,
    token: *b"BUY-0001      ",
    number: 1,
    shares: 1000,
    price: 1012500,
    letter: Letter::Live,
    match_number: 0,
    old: OldOrder {
        token: [b' '; 14],
        number: 0,
        shares: 0,
    },
    terms: Some(TERMS),
};

const REPLACED: Slip = Slip {
    kind: SlipKind::Replaced,
    token: *b"BUY-0002      ",
    number: 2,
    shares: 800,
    old: OldOrder {
        token: *b"BUY-0001      ",
        number: 1,
        shares: 1000,
    },
    ..ACCEPTED
};

const EXECUTED: Slip = Slip {
    kind: SlipKind::Executed,
    shares: 300,
    letter: Letter::Added,
    match_number: 41,
    terms: None,
    ..ACCEPTED
};

const CANCELLED: Slip = Slip {
    kind: SlipKind::Cancelled,
    shares: 700,
    letter: Letter::UserRequest,
    price: 0,
    terms: None,
    ..ACCEPTED
};

const CANCEL_REJECTED: Slip = Slip {
    kind: SlipKind::CancelRejected,
    shares: 0,
    number: 0,
    letter: Letter::Blank,
    price: 0,
    terms: None,
    ..ACCEPTED
};

const REJECTED: Slip = Slip {
    kind: SlipKind::Rejected,
    shares: 0,
    number: 0,
    letter: Letter::UnknownStock,
    price: 0,
    terms: None,
    ..ACCEPTED
};

// An answer in words and as it is sent.
#[derive(Clone, Copy)]
struct Example<'a>(&'a Slip);

// The six answers.
#[derive(Clone, Copy)]
pub struct AnswerExamples;

impl fmt::Display for Example<'_> {
    fn fmt<W: fmt::Write>(&self, f: &mut fmt::Formatter<W>) -> fmt::Result {
        let words = SlipWords(self.0);
        let mut out = [0; ROOM];
        let length = write_slip(self.0, &mut out).unwrap_or(0);
        let hex = Hex(out.get(0..length).unwrap_or(&[]));
        write!(f, "{words}")?;
        writeln!(f, "    length         {length}")?;
        writeln!(f, "    message        {hex}")
    }
}

impl fmt::Display for AnswerExamples {
    fn fmt<W: fmt::Write>(&self, f: &mut fmt::Formatter<W>) -> fmt::Result {
        writeln!(f, "An example of each answer")?;
        for slip in &[
            ACCEPTED,
            REPLACED,
            EXECUTED,
            CANCELLED,
            CANCEL_REJECTED,
            REJECTED,
        ] {
            let example = Example(slip);
            writeln!(f, "{example}")?;
        }
        Ok(())
    }
}
