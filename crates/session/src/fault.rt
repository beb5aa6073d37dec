// What can be wrong with a line of a session file.
ghost use Rattle.std.specs.Prelude.{Some};
ghost use Rattle.session.specs.Errors.{fault_text};

use std::fmt;

#[derive(Clone, Copy, PartialEq, Eq, Debug)]
pub enum LineFault {
    // the first word names no item
    UnknownItem,
    // the item has fewer words than it needs
    MissingWord,
    // the item has more words than it takes
    ExtraWord,
    // a word of bytes holds what is no hex digit
    BadDigit,
    // a word of bytes has half a byte at its end
    OddDigits,
    // a word that should be a number is none, or is one too large for its place
    BadNumber,
}

impl fmt::Display for LineFault {
    ghost output = { λ fault. Some (fault_text fault) };

    fn fmt<W: fmt::Write>(&self, f: &mut fmt::Formatter<W>) -> fmt::Result {
        f.write_str(match self {
            LineFault::UnknownItem => "the first word names no item",
            LineFault::MissingWord => "a word is missing",
            LineFault::ExtraWord => "there is a word too many",
            LineFault::BadDigit => "a character is no hex digit",
            LineFault::OddDigits => "the number of hex digits is odd",
            LineFault::BadNumber => "a word is no number, or one too large for its place",
        })
    }
}
