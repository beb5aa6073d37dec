// Frames with a wrong field: the refusal carries the offset where the lowest wrong field starts.
use crate::frames::{CANCEL, ENTER, REPLACE, comes_back, is_refused, put, with};
use std::process::Abort;

// The bytes of one field, from the first to the last, and what each of them may be: any byte where nothing is listed.
type Field = (usize, usize, &'static [u8]);

// of an enter with the peg M, no constraint and time in force 0
static ENTER_FIELDS: [Field; 23] = [
    (1, 14, b""),
    (15, 15, b"BSTE"),
    (16, 19, b""),
    (20, 25, b""),
    (26, 29, b""),
    (30, 33, b"\x00"),
    (34, 37, b""),
    (38, 38, b" "),
    (39, 39, b"AP"),
    (40, 40, b" "),
    (41, 44, b""),
    (45, 45, b" "),
    (46, 46, b" 12"),
    (47, 47, b" "),
    (48, 48, b" 123"),
    (49, 53, b" "),
    (54, 54, b"1345STUV"),
    (55, 55, b"MNR"),
    (56, 56, b" "),
    (57, 60, b"\x00"),
    (61, 61, b"\x00\x01\x02\x03\x04"),
    (62, 65, b"\x00"),
    (66, 66, b"YN"),
];

static REPLACE_FIELDS: [Field; 15] = [
    (1, 14, b""),
    (15, 28, b""),
    (29, 32, b""),
    (33, 36, b""),
    (37, 40, b"\x00"),
    (41, 41, b" "),
    (42, 42, b" "),
    (43, 46, b""),
    (47, 47, b"1345STUV"),
    (48, 48, b"MNR"),
    (49, 49, b" "),
    (50, 53, b"\x00"),
    (54, 54, b" "),
    (55, 58, b"\x00"),
    (59, 59, b"YN"),
];

static CANCEL_FIELDS: [Field; 2] = [(1, 14, b""), (15, 18, b"\x00")];

// Two bytes that are put into the enter with the peg M, the constraint 2 and time in force 99998, and the offset that is then refused.
static WRONG_PAIRS: [(usize, u8, usize, u8, usize); 22] = [
    // time in force
    (30, 1, 31, 1, 30),
    (30, 0, 31, 0, 30),
    (31, 1, 32, 0x87, 30),
    (32, 0x86, 33, 0x9D, 30),
    (32, 0x86, 33, 0x9F, 30),
    (32, 0x86, 33, 0, 30),
    // constraint and peg
    (46, b'1', 55, b'N', 46),
    (46, b'2', 55, b'R', 46),
    (46, b'1', 55, b'P', 46),
    (46, b'2', 55, b' ', 46),
    (46, b'3', 55, b'M', 46),
    (46, b'3', 55, b'P', 46),
    (46, 0, 55, b'N', 46),
    (46, b' ', 55, b'P', 55),
    (46, b' ', 55, 0, 55),
    // two wrong fields
    (15, b' ', 66, b' ', 15),
    (66, b' ', 61, 9, 61),
    (39, b'X', 33, 7, 30),
    (53, b'x', 48, b'4', 48),
    (54, b'2', 53, b'x', 49),
    (65, 1, 60, 1, 57),
    (62, 1, 56, 0, 56),
];

// The byte at an offset takes every value, in a frame that is right but for it: any other than a lawful one is refused at the field's offset.
fn every_value_is_tried(
    rt: &impl Abort,
    frame: &mut [u8],
    at: usize,
    lawful: &[u8],
    field: usize,
    name: &str,
) {
    let right = frame.get(at).copied().unwrap_or(0);
    for byte in 0..=255u8 {
        put(frame, at, &[byte]);
        let case = format_args!("{name}: {byte} at {at}");
        if lawful.is_empty() || lawful.contains(&byte) {
            comes_back(rt, frame, &case);
        } else {
            is_refused(rt, frame, 13, Some(field), &case);
        }
    }
    put(frame, at, &[right]);
}

fn every_byte_is_tried(rt: &impl Abort, frame: &mut [u8], fields: &[Field], name: &str) {
    for (first, last, lawful) in fields {
        for at in *first..=*last {
            every_value_is_tried(rt, frame, at, lawful, *first, name);
        }
    }
}

#[test]
fn each_field_takes_its_list_and_nothing_else(rt: HostRuntime) {
    let mut enter = with(&ENTER, 30, &[0; 4]);
    put(&mut enter, 46, b" ");
    every_byte_is_tried(&rt, &mut enter, &ENTER_FIELDS, "enter");
    let mut replace = REPLACE;
    every_byte_is_tried(&rt, &mut replace, &REPLACE_FIELDS, "replace");
    let mut cancel = CANCEL;
    every_byte_is_tried(&rt, &mut cancel, &CANCEL_FIELDS, "cancel");
}

#[test]
fn the_lowest_wrong_field_is_told(rt: HostRuntime) {
    for (i, byte, j, other, field) in &WRONG_PAIRS {
        let mut enter = with(&ENTER, *i, &[*byte]);
        put(&mut enter, *j, &[*other]);
        is_refused(&rt, &enter, 13, Some(*field), &format_args!("{i} and {j}"));
    }
}
