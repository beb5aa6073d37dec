// The lines by which engines are compared.
use crate::command::COMMAND_ROOM;
use session::hex::Hex;
use std::fmt;
use ubp::refusal::{ReadRefusal, Refusal};
use ubp::restore::restore;

// What answers a frame that can't be read.
#[derive(Clone, Copy)]
pub struct RefusalLine(pub ReadRefusal);

// What answers a frame that is only read: the command written back, or the refusal.
#[derive(Clone, Copy)]
pub struct ReadLine<'a>(pub &'a [u8]);

impl fmt::Display for RefusalLine {
    fn fmt<W: fmt::Write>(&self, f: &mut fmt::Formatter<W>) -> fmt::Result {
        let number = self.0.number();
        match self.0 {
            ReadRefusal::BadField(offset) => write!(f, "refused {number} {offset}"),
            _ => write!(f, "refused {number}"),
        }
    }
}

impl fmt::Display for ReadLine<'_> {
    fn fmt<W: fmt::Write>(&self, f: &mut fmt::Formatter<W>) -> fmt::Result {
        let mut out = [0; COMMAND_ROOM];
        match restore(self.0, &mut out) {
            Ok(length) => {
                let hex = Hex(out.get(0..length).unwrap_or(&[]));
                write!(f, "read {hex}")
            }
            Err(Refusal::Reading(refusal)) => {
                let line = RefusalLine(refusal);
                write!(f, "{line}")
            }
            Err(refusal) => {
                let number = refusal.number();
                write!(f, "refused {number}")
            }
        }
    }
}
