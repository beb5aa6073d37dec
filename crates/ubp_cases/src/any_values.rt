// Texts and numbers that the reader takes whatever they are.
use crate::frames::{CANCEL, ENTER, REPLACE, any_command, comes_back, put, with};
use orders::command::Command;
use std::fmt::Display;
use std::process::Abort;
use ubp::read::read;

// Bytes that are put into a frame, their offset, and the shares, the price and the minimum that it then has.
type Numbers = (usize, [u8; 4], u32, i32, u32);

static ENTERS: [Numbers; 20] = [
    (26, [0; 4], 263_430, 0, 66_051),
    (26, [0, 0, 0, 1], 263_430, 1, 66_051),
    (26, [0xFF; 4], 263_430, -1, 66_051),
    (26, [0xFF, 0xFF, 0xFF, 0x9C], 263_430, -100, 66_051),
    (26, [0, 0x07, 0xA1, 0x20], 263_430, 500_000, 66_051),
    (26, [0, 0x07, 0xA1, 0x52], 263_430, 500_050, 66_051),
    (26, [0x7F, 0xFF, 0xFF, 0xFF], 263_430, i32::MAX, 66_051),
    (26, [0x80, 0, 0, 0], 263_430, i32::MIN, 66_051),
    (16, [0; 4], 0, 500_100, 66_051),
    (16, [0, 0, 0, 1], 1, 500_100, 66_051),
    (16, [0, 0x0F, 0x42, 0x3F], 999_999, 500_100, 66_051),
    (16, [0, 0x0F, 0x42, 0x40], 1_000_000, 500_100, 66_051),
    (16, [0x80, 0, 0, 0], 2_147_483_648, 500_100, 66_051),
    (16, [0xFF; 4], u32::MAX, 500_100, 66_051),
    (41, [0; 4], 263_430, 500_100, 0),
    (41, [0, 0, 0, 1], 263_430, 500_100, 1),
    (41, [0, 0x0F, 0x42, 0x3F], 263_430, 500_100, 999_999),
    (41, [0, 0x0F, 0x42, 0x40], 263_430, 500_100, 1_000_000),
    (41, [0x80, 0, 0, 0], 263_430, 500_100, 2_147_483_648),
    (41, [0xFF; 4], 263_430, 500_100, u32::MAX),
];

static REPLACES: [Numbers; 20] = [
    (33, [0; 4], 460_809, 0, 131_844),
    (33, [0, 0, 0, 1], 460_809, 1, 131_844),
    (33, [0xFF; 4], 460_809, -1, 131_844),
    (33, [0xFF, 0xFF, 0xFF, 0x9C], 460_809, -100, 131_844),
    (33, [0, 0x07, 0xA1, 0x20], 460_809, 500_000, 131_844),
    (33, [0, 0x07, 0xA1, 0x52], 460_809, 500_050, 131_844),
    (33, [0x7F, 0xFF, 0xFF, 0xFF], 460_809, i32::MAX, 131_844),
    (33, [0x80, 0, 0, 0], 460_809, i32::MIN, 131_844),
    (29, [0; 4], 0, 1_000_100, 131_844),
    (29, [0, 0, 0, 1], 1, 1_000_100, 131_844),
    (29, [0, 0x0F, 0x42, 0x3F], 999_999, 1_000_100, 131_844),
    (29, [0, 0x0F, 0x42, 0x40], 1_000_000, 1_000_100, 131_844),
    (29, [0x80, 0, 0, 0], 2_147_483_648, 1_000_100, 131_844),
    (29, [0xFF; 4], u32::MAX, 1_000_100, 131_844),
    (43, [0; 4], 460_809, 1_000_100, 0),
    (43, [0, 0, 0, 1], 460_809, 1_000_100, 1),
    (43, [0, 0x0F, 0x42, 0x3F], 460_809, 1_000_100, 999_999),
    (43, [0, 0x0F, 0x42, 0x40], 460_809, 1_000_100, 1_000_000),
    (43, [0x80, 0, 0, 0], 460_809, 1_000_100, 2_147_483_648),
    (43, [0xFF; 4], 460_809, 1_000_100, u32::MAX),
];

// The frame comes back, and is read as an order of these shares, price and minimum.
fn has(rt: &impl Abort, frame: &[u8], shares: u32, price: i32, minimum: u32, case: &impl Display) {
    comes_back(rt, frame, case);
    let mut command = any_command();
    assert!(rt; read(frame, &mut command).is_ok(), "{case}");
    match command {
        Command::Enter(order) => assert!(rt;
            order.shares == shares && order.price == price && order.terms.minimum == minimum,
            "{case}"
        ),
        Command::Replace(order) => assert!(rt;
            order.shares == shares && order.price == price && order.minimum == minimum,
            "{case}"
        ),
        Command::Cancel(_) => panic!(rt; "{case}: a cancel has no numbers"),
    }
}

#[test]
fn any_price_shares_and_minimum_are_read(rt: HostRuntime) {
    for (at, bytes, shares, price, minimum) in &ENTERS {
        let case = format_args!("enter, {bytes:?} at {at}");
        has(
            &rt,
            &with(&ENTER, *at, bytes),
            *shares,
            *price,
            *minimum,
            &case,
        );
    }
    for (at, bytes, shares, price, minimum) in &REPLACES {
        let case = format_args!("replace, {bytes:?} at {at}");
        has(
            &rt,
            &with(&REPLACE, *at, bytes),
            *shares,
            *price,
            *minimum,
            &case,
        );
    }
}

#[test]
fn token_stock_and_firm_are_any_bytes(rt: HostRuntime) {
    for byte in [0x00, 0x20, 0xFF] {
        let texts = [byte; 28];
        let mut enter = with(&ENTER, 1, &texts[0..14]);
        put(&mut enter, 20, &texts[0..6]);
        put(&mut enter, 34, &texts[0..4]);
        comes_back(&rt, &enter, &format_args!("enter, {byte}"));
        comes_back(
            &rt,
            &with(&REPLACE, 1, &texts),
            &format_args!("replace, {byte}"),
        );
        let mut cancel = CANCEL;
        put(&mut cancel, 1, &texts[0..14]);
        comes_back(&rt, &cancel, &format_args!("cancel, {byte}"));
    }
}
