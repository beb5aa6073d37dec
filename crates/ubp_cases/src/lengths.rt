// Frames of every length up to 100 bytes.
use crate::frames::{CANCEL, ENTER, REPLACE, comes_back, is_refused, put};
use std::process::Abort;

// The frame, cut or lengthened by zeros, is read at its own length alone.
fn only_its_length_is_read(rt: &impl Abort, frame: &[u8], name: &str) {
    let mut bytes = [0; 100];
    put(&mut bytes, 0, frame);
    for n in 0..101usize {
        let case = format_args!("{name}: {n} bytes");
        if n == frame.len() {
            comes_back(rt, &bytes[0..n], &case);
        } else {
            is_refused(rt, &bytes[0..n], 11, None, &case);
        }
    }
}

#[test]
fn a_command_is_read_at_its_own_length_alone(rt: HostRuntime) {
    only_its_length_is_read(&rt, &ENTER, "enter");
    only_its_length_is_read(&rt, &REPLACE, "replace");
    only_its_length_is_read(&rt, &CANCEL, "cancel");
}

#[test]
fn an_unknown_first_byte_is_refused_at_every_length_but_0(rt: HostRuntime) {
    for first in 0..=255u8 {
        if b"ouX".contains(&first) {
            continue;
        }
        let bytes = [first; 100];
        for n in 0..101usize {
            let number = if n == 0 { 11 } else { 12 };
            let case = format_args!("{n} bytes of {first}");
            is_refused(&rt, &bytes[0..n], number, None, &case);
        }
    }
}
