// What can be wrong with the words of the command line.
ghost use Rattle.options.specs.Faults.{told};
ghost use Rattle.std.specs.Prelude.{Some};

use std::error::Error;
use std::fmt;

#[derive(Debug, Drop)]
pub enum OptionFault {
    // the word begins as an option does, and is none
    Unknown(String),
    // a file is named already
    SecondFile(String),
}

impl fmt::Display for OptionFault {
    ghost output = { λ fault. Some (told fault) };

    fn fmt<W: fmt::Write>(&self, f: &mut fmt::Formatter<W>) -> fmt::Result {
        match self {
            OptionFault::Unknown(word) => write!(f, "unknown option {word}"),
            OptionFault::SecondFile(word) => write!(f, "more than one file: {word}"),
        }
    }
}

impl Error for OptionFault {}
