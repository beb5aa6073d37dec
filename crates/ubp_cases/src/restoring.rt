// Frames that are read and written again in one call.
use crate::buffers::{UNTOUCHED, holds, is_written};
use crate::frames::{CANCEL, ENTER, REPLACE, with};
use std::process::Abort;
use ubp::refusal::Refusal;
use ubp::restore::restore;

// The frame is restored in buffers that have room for it, and the others are left alone.
fn is_restored(rt: &impl Abort, frame: &[u8], name: &str) {
    is_written(
        rt,
        |out| restore(frame, out).map_err(|refused| refused.number()),
        frame,
        &name,
    );
}

// The frame is refused by the reader with this number, whatever the buffer, which is left alone.
fn is_not_read(rt: &impl Abort, frame: &[u8], number: u32) {
    for n in [0usize, 10, 100] {
        let mut buffer = [UNTOUCHED; 100];
        let out = &mut buffer[0..n];
        let case = format_args!("refusal {number}, a buffer of {n} bytes");
        let Err(Refusal::Reading(refused)) = restore(frame, out) else {
            panic!(rt; "{case}: it is read");
        };
        assert_eq!(rt; refused.number(), number, "{case}");
        holds(rt, out, b"", &case);
    }
}

#[test]
fn a_frame_is_restored(rt: HostRuntime) {
    is_restored(&rt, &ENTER, "enter");
    is_restored(&rt, &REPLACE, "replace");
    is_restored(&rt, &CANCEL, "cancel");
}

#[test]
fn what_is_not_read_touches_nothing(rt: HostRuntime) {
    is_not_read(&rt, b"", 11);
    is_not_read(&rt, b"X", 11);
    is_not_read(&rt, b"x", 12);
    is_not_read(&rt, &with(&ENTER, 15, b"b"), 13);
}
