// What each coded byte of an enter is read as, and how the answers tell it again.
use crate::answer_bytes::{ACCEPTED, REPLACED};
use crate::answers::slip;
use crate::buffers::is_written;
use crate::frames::{ENTER, any_command, put};
use orders::command::Command;
use orders::fields::{
    Capacity, Constraint, CrossStyle, InviteGrade, LeavesMode, Lots, Peg, Side, Terms, TimeInForce,
};
use orders::slip::{Letter, SlipKind};
use ubp::read::read;
use ubp::write_slip::write_slip;

// The offsets stand once, beside eight rows of bytes: a table of pairs would say each of them eight times.
// The offsets of side, time in force, capacity, cross style, peg, round lot, invite grade, constraint and leaves mode.
static ENTER_PLACES: [usize; 12] = [15, 30, 31, 32, 33, 39, 54, 55, 66, 61, 46, 48];

// The same in an accepted answer, which tells neither constraint nor leaves mode.
static ACCEPTED_PLACES: [usize; 10] = [23, 38, 39, 40, 41, 55, 71, 72, 83, 78];

// The same in a replaced answer, which tells no grade either.
static REPLACED_PLACES: [usize; 9] = [23, 38, 39, 40, 41, 55, 85, 86, 97];

// What stands there, and the terms that it means. Between them the eight orders have every code of every field.
static CODED: [([u8; 12], Terms); 8] = [
    (
        *b"B\x00\x00\x00\x00A1MY\x00  ",
        Terms {
            side: Side::Buy,
            stock: *b"ACME  ",
            time: TimeInForce::Immediate,
            firm: *b"FIRM",
            capacity: Capacity::Agency,
            minimum: 66_051,
            constraint: Constraint::Unstated,
            leaves: LeavesMode::NotStated,
            style: CrossStyle::All,
            peg: Peg::Midpoint,
            grade: InviteGrade::Nobody,
            lots: Lots::RoundOnly,
        },
    ),
    (
        *b"S\x00\x01\x86\x9EP3MN\x0111",
        Terms {
            side: Side::Sell,
            stock: *b"ACME  ",
            time: TimeInForce::MarketHours,
            firm: *b"FIRM",
            capacity: Capacity::Principal,
            minimum: 66_051,
            constraint: Constraint::FillToLimit,
            leaves: LeavesMode::DropMinimum,
            style: CrossStyle::AgencyOnly,
            peg: Peg::Midpoint,
            grade: InviteGrade::Anyone,
            lots: Lots::AnyLot,
        },
    ),
    (
        *b"T\x00\x00\x00\x00A4MY\x0222",
        Terms {
            side: Side::SellShort,
            stock: *b"ACME  ",
            time: TimeInForce::Immediate,
            firm: *b"FIRM",
            capacity: Capacity::Agency,
            minimum: 66_051,
            constraint: Constraint::FillToMidpoint,
            leaves: LeavesMode::LowerMinimum,
            style: CrossStyle::NoSelf,
            peg: Peg::Midpoint,
            grade: InviteGrade::FromMedium,
            lots: Lots::RoundOnly,
        },
    ),
    (
        *b"E\x00\x01\x86\x9EP5NN\x03 3",
        Terms {
            side: Side::SellShortExempt,
            stock: *b"ACME  ",
            time: TimeInForce::MarketHours,
            firm: *b"FIRM",
            capacity: Capacity::Principal,
            minimum: 66_051,
            constraint: Constraint::Unstated,
            leaves: LeavesMode::CancelRest,
            style: CrossStyle::AgencyNoSelf,
            peg: Peg::Unpegged,
            grade: InviteGrade::FromHigh,
            lots: Lots::AnyLot,
        },
    ),
    (
        *b"B\x00\x01\x86\x9EASRY\x04  ",
        Terms {
            side: Side::Buy,
            stock: *b"ACME  ",
            time: TimeInForce::MarketHours,
            firm: *b"FIRM",
            capacity: Capacity::Agency,
            minimum: 66_051,
            constraint: Constraint::Unstated,
            leaves: LeavesMode::NotStated,
            style: CrossStyle::AllNotFive,
            peg: Peg::Primary,
            grade: InviteGrade::HouseOnly,
            lots: Lots::RoundOnly,
        },
    ),
    (
        *b"S\x00\x00\x00\x00PTMN\x0023",
        Terms {
            side: Side::Sell,
            stock: *b"ACME  ",
            time: TimeInForce::Immediate,
            firm: *b"FIRM",
            capacity: Capacity::Principal,
            minimum: 66_051,
            constraint: Constraint::FillToMidpoint,
            leaves: LeavesMode::CancelRest,
            style: CrossStyle::AgencyNotFive,
            peg: Peg::Midpoint,
            grade: InviteGrade::Nobody,
            lots: Lots::AnyLot,
        },
    ),
    (
        *b"T\x00\x01\x86\x9EAUNY\x01 1",
        Terms {
            side: Side::SellShort,
            stock: *b"ACME  ",
            time: TimeInForce::MarketHours,
            firm: *b"FIRM",
            capacity: Capacity::Agency,
            minimum: 66_051,
            constraint: Constraint::Unstated,
            leaves: LeavesMode::DropMinimum,
            style: CrossStyle::AgencyNoSelfNotFive,
            peg: Peg::Unpegged,
            grade: InviteGrade::Anyone,
            lots: Lots::RoundOnly,
        },
    ),
    (
        *b"E\x00\x00\x00\x00PVMN\x0312",
        Terms {
            side: Side::SellShortExempt,
            stock: *b"ACME  ",
            time: TimeInForce::Immediate,
            firm: *b"FIRM",
            capacity: Capacity::Principal,
            minimum: 66_051,
            constraint: Constraint::FillToLimit,
            leaves: LeavesMode::LowerMinimum,
            style: CrossStyle::NoSelfNotFive,
            peg: Peg::Midpoint,
            grade: InviteGrade::FromHigh,
            lots: Lots::AnyLot,
        },
    ),
];

// Puts each byte at its place.
fn put_each(message: &mut [u8], places: &[usize], bytes: &[u8]) {
    for (at, byte) in places.iter().zip(bytes) {
        put(message, *at, &[*byte]);
    }
}

#[test]
fn each_code_is_read(rt: HostRuntime) {
    for (codes, terms) in &CODED {
        let mut frame = ENTER;
        put_each(&mut frame, &ENTER_PLACES, codes);
        let mut command = any_command();
        assert!(rt; read(&frame, &mut command).is_ok(), "{codes:?}");
        let Command::Enter(order) = command else {
            panic!(rt; "{codes:?}: no enter");
        };
        assert_eq!(rt; order.terms, *terms, "{codes:?}");
    }
}

#[test]
fn each_code_is_told(rt: HostRuntime) {
    for (codes, terms) in &CODED {
        let mut accepted = ACCEPTED;
        put_each(&mut accepted, &ACCEPTED_PLACES, codes);
        let slip_accepted = slip(SlipKind::Accepted, Letter::Live, Some(*terms));
        is_written(
            &rt,
            |out| write_slip(&slip_accepted, out).map_err(|refused| refused.number()),
            &accepted,
            &format_args!("accepted, {codes:?}"),
        );
        let mut replaced = REPLACED;
        put_each(&mut replaced, &REPLACED_PLACES, codes);
        let slip_replaced = slip(SlipKind::Replaced, Letter::Live, Some(*terms));
        is_written(
            &rt,
            |out| write_slip(&slip_replaced, out).map_err(|refused| refused.number()),
            &replaced,
            &format_args!("replaced, {codes:?}"),
        );
    }
}
