// The refusals of the reader.
use std::fmt;
use ubp::refusal::ReadRefusal;

// A refusal by its number, with what it means.
#[derive(Clone, Copy)]
pub struct RefusalWords(pub ReadRefusal);

impl fmt::Display for RefusalWords {
    fn fmt<W: fmt::Write>(&self, f: &mut fmt::Formatter<W>) -> fmt::Result {
        let number = self.0.number();
        match self.0 {
            ReadRefusal::WrongLength => write!(
                f,
                "{number}: the frame is empty, or has not the length of its command"
            ),
            ReadRefusal::UnknownType => write!(f, "{number}: the first byte names no command"),
            ReadRefusal::BadField(offset) => write!(
                f,
                "{number}: the field at offset {offset} holds what it may not"
            ),
        }
    }
}
