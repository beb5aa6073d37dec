// Each command, read field by field and written into buffers of all lengths.
use crate::buffers::is_written;
use crate::frames::{CANCEL, ENTER, REPLACE, any_command};
use orders::command::Command;
use orders::fields::{
    Capacity, Constraint, CrossStyle, InviteGrade, LeavesMode, Lots, Peg, Side, Terms, TimeInForce,
};
use ubp::read::read;
use ubp::write::write;

const TERMS: Terms = Terms {
    side: Side::SellShort,
    stock: *b"ACME  ",
    time: TimeInForce::MarketHours,
    firm: *b"FIRM",
    capacity: Capacity::Principal,
    minimum: 66_051,
    constraint: Constraint::FillToMidpoint,
    leaves: LeavesMode::CancelRest,
    style: CrossStyle::NoSelfNotFive,
    peg: Peg::Midpoint,
    grade: InviteGrade::FromMedium,
    lots: Lots::RoundOnly,
};

#[test]
fn enter_is_read_field_by_field_and_written(rt: HostRuntime) {
    let mut command = any_command();
    assert!(rt; read(&ENTER, &mut command).is_ok());
    is_written(
        &rt,
        |out| write(&command, out).map_err(|refused| refused.number()),
        &ENTER,
        &"enter",
    );
    let Command::Enter(order) = command else {
        panic!(rt; "no enter");
    };
    assert!(rt;
        order.token == *b"ENTER-TOKEN-01" && order.shares == 263_430 && order.price == 500_100
    );
    assert_eq!(rt; order.terms, TERMS);
}

#[test]
fn replace_is_read_field_by_field_and_written(rt: HostRuntime) {
    let mut command = any_command();
    assert!(rt; read(&REPLACE, &mut command).is_ok());
    is_written(
        &rt,
        |out| write(&command, out).map_err(|refused| refused.number()),
        &REPLACE,
        &"replace",
    );
    let Command::Replace(order) = command else {
        panic!(rt; "no replace");
    };
    assert!(rt; order.existing == *b"ENTER-TOKEN-01" && order.token == *b"REPL--TOKEN-02");
    assert!(rt; order.shares == 460_809 && order.price == 1_000_100 && order.minimum == 131_844);
    assert!(rt;
        order.time == TimeInForce::Immediate
            && order.style == CrossStyle::AgencyNoSelfNotFive
            && order.peg == Peg::Primary
            && order.lots == Lots::AnyLot
    );
}

#[test]
fn cancel_is_read_and_written(rt: HostRuntime) {
    let mut command = any_command();
    assert!(rt; read(&CANCEL, &mut command).is_ok());
    is_written(
        &rt,
        |out| write(&command, out).map_err(|refused| refused.number()),
        &CANCEL,
        &"cancel",
    );
    let Command::Cancel(order) = command else {
        panic!(rt; "no cancel");
    };
    assert_eq!(rt; order.token, *b"REPL--TOKEN-02");
}
