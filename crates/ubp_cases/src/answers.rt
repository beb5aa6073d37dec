// Each kind of answer, byte by byte.
use crate::answer_bytes::{
    ACCEPTED, BARE_ACCEPTED, BARE_REPLACED, CANCEL_REJECTED, CANCELLED, EXECUTED, REJECTED,
    REPLACED,
};
use crate::buffers::is_written;
use crate::frames::put;
use orders::fields::{
    Capacity, Constraint, CrossStyle, InviteGrade, LeavesMode, Lots, Peg, Side, Terms, TimeInForce,
};
use orders::slip::{Letter, OldOrder, Slip, SlipKind};
use std::process::Abort;
use ubp::write_slip::write_slip;

const TERMS: Terms = Terms {
    side: Side::SellShortExempt,
    stock: *b"ACME  ",
    time: TimeInForce::MarketHours,
    firm: *b"FIRM",
    capacity: Capacity::Principal,
    minimum: 0x00010203,
    constraint: Constraint::FillToMidpoint,
    leaves: LeavesMode::CancelRest,
    style: CrossStyle::AgencyNotFive,
    peg: Peg::Primary,
    grade: InviteGrade::HouseOnly,
    lots: Lots::RoundOnly,
};

// Each kind, the terms of the slip, the message, and the letter's offset there. `I` has no letter: what is put past a message counts for nothing.
const ANSWERS: [(SlipKind, Option<Terms>, &[u8], usize); 8] = [
    (SlipKind::Accepted, Some(TERMS), &ACCEPTED, 62),
    (SlipKind::Accepted, None, &BARE_ACCEPTED, 62),
    (SlipKind::Replaced, Some(TERMS), &REPLACED, 62),
    (SlipKind::Replaced, None, &BARE_REPLACED, 62),
    (SlipKind::Executed, None, &EXECUTED, 31),
    (SlipKind::Cancelled, None, &CANCELLED, 27),
    (SlipKind::CancelRejected, None, &CANCEL_REJECTED, 23),
    (SlipKind::Rejected, None, &REJECTED, 23),
];

static LETTERS: [(Letter, u8); 12] = [
    (Letter::Blank, b' '),
    (Letter::Live, b'L'),
    (Letter::Added, b'A'),
    (Letter::Removed, b'R'),
    (Letter::ImmediateRest, b'I'),
    (Letter::UserRequest, b'U'),
    (Letter::BelowMinimum, b'M'),
    (Letter::UnknownStock, b'S'),
    (Letter::TooManyShares, b'Z'),
    (Letter::BadMinimum, b'N'),
    (Letter::BadPrice, b'X'),
    (Letter::Other, b'K'),
];

// A slip of any kind, of values that all differ. Its client and the number and shares of the old order stand in no message.
pub(crate) fn slip(kind: SlipKind, letter: Letter, terms: Option<Terms>) -> Slip {
    Slip {
        kind,
        clock: 0x0102030405060708,
        client: 0x292A2B2C,
        token: *b"ANSWER-TOKEN-1",
        number: 0x1112131415161718,
        shares: 0x090A0B0C,
        price: -100_000,
        letter,
        match_number: 0x2122232425262728,
        old: OldOrder {
            token: *b"FORMER-TOKEN-0",
            number: 0x3132333435363738,
            shares: 0x393A3B3C,
        },
        terms,
    }
}

// The slip is written as the message with another byte at an offset.
fn is_told(rt: &impl Abort, slip: &Slip, message: &[u8], at: usize, byte: u8) {
    let case = format_args!("letter {byte} at {at}");
    let mut expected = [0; 100];
    put(&mut expected, 0, message);
    put(&mut expected, at, &[byte]);
    match expected.get(0..message.len()) {
        Some(told) => is_written(
            rt,
            |out| write_slip(slip, out).map_err(|refused| refused.number()),
            told,
            &case,
        ),
        None => panic!(rt; "{case}: a long message"),
    }
}

#[test]
fn each_answer_is_written_byte_by_byte_with_each_letter(rt: HostRuntime) {
    for (kind, terms, message, at) in &ANSWERS {
        for (letter, byte) in &LETTERS {
            is_told(&rt, &slip(*kind, *letter, *terms), message, *at, *byte);
        }
    }
}
