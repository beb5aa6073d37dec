// The hand-made frames of the three commands, a line for each field, and what the cases do with a frame.
use crate::buffers::{UNTOUCHED, written};
use orders::command::{CancelOrder, Command};
use std::fmt::Display;
use std::process::Abort;
use ubp::read::read;
use ubp::refusal::ReadRefusal;
use ubp::write::write;

// Sell short 263,430 ACME at 50.01 or better, pegged to the midpoint.
pub(crate) static ENTER: [u8; 67] = *b"o\
    ENTER-TOKEN-01\
    T\
    \x00\x04\x05\x06\
    ACME\x20\x20\
    \x00\x07\xA1\x84\
    \x00\x01\x86\x9E\
    FIRM\
    \x20\
    P\
    \x20\
    \x00\x01\x02\x03\
    \x20\
    2\
    \x20\
    3\
    \x20\x20\x20\x20\x20\
    V\
    M\
    \x20\
    \x00\x00\x00\x00\
    \x02\
    \x00\x00\x00\x00\
    Y";

// 460,809 shares at 100.01 or better, in the place of the order above.
pub(crate) static REPLACE: [u8; 60] = *b"u\
    ENTER-TOKEN-01\
    REPL--TOKEN-02\
    \x00\x07\x08\x09\
    \x00\x0F\x42\xA4\
    \x00\x00\x00\x00\
    \x20\
    \x20\
    \x00\x02\x03\x04\
    U\
    R\
    \x20\
    \x00\x00\x00\x00\
    \x20\
    \x00\x00\x00\x00\
    N";

pub(crate) static CANCEL: [u8; 19] = *b"X\
    REPL--TOKEN-02\
    \x00\x00\x00\x00";

// A command for the reader to fill.
pub(crate) fn any_command() -> Command {
    Command::Cancel(CancelOrder { token: [b'?'; 14] })
}

// The command is written as the message, and past it nothing is touched.
fn is_written_as(rt: &impl Abort, command: &Command, message: &[u8], case: &impl Display) {
    let mut out = [UNTOUCHED; 100];
    let answer = write(command, &mut out).map_err(|refused| refused.number());
    written(rt, answer, &out, message, case);
}

// The frame is read, and what is read is written as the same bytes.
pub(crate) fn comes_back(rt: &impl Abort, frame: &[u8], case: &impl Display) {
    let mut command = any_command();
    assert!(rt; read(frame, &mut command).is_ok(), "{case}: it is refused");
    is_written_as(rt, &command, frame, case);
}

// The frame is refused with this number, and for the field at this offset if for a field, and a command that the caller holds stays as it was.
pub(crate) fn is_refused(
    rt: &impl Abort,
    frame: &[u8],
    number: u32,
    field: Option<usize>,
    case: &impl Display,
) {
    let mut command = any_command();
    assert!(rt; read(&REPLACE, &mut command).is_ok(), "{case}");
    let Err(refused) = read(frame, &mut command) else {
        panic!(rt; "{case}: it is read");
    };
    assert_eq!(rt; refused.number(), number, "{case}");
    let offset = match refused {
        ReadRefusal::BadField(offset) => Some(offset),
        _ => None,
    };
    assert_eq!(rt; offset, field, "{case}");
    is_written_as(rt, &command, &REPLACE, case);
}

// Puts bytes into a frame from an offset on.
pub(crate) fn put(frame: &mut [u8], at: usize, bytes: &[u8]) {
    for (place, byte) in frame.iter_mut().skip(at).zip(bytes) {
        *place = *byte;
    }
}

// The frame with other bytes from an offset on.
pub(crate) fn with<const N: usize>(frame: &[u8; N], at: usize, bytes: &[u8]) -> [u8; N] {
    let mut changed = *frame;
    put(&mut changed, at, bytes);
    changed
}
