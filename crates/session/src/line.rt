// What one line of a session file says, where the file has frames alone. A book's file has a parser and an item type of its own (`book`): a line with another item is wrong here, and says something there.
ghost use Rattle.session.specs.Errors.{Reads};
ghost use Rattle.session.specs.Lines.{item_of, said};

use crate::error::LineError;
use crate::fault::LineFault;
use crate::words::{item_words, only_bytes};
use std::alloc::Global;

#[derive(PartialEq, Eq, Debug, Drop)]
pub enum Item {
    // a blank line, or a comment alone
    Nothing,
    // `read HEX`: a frame for the reader and the command writer alone
    Read(Vec<u8>),
}

// What a line says, without the line feed at its end.
pub fn parse(heap: Global, line: &[u8]) -> Result<Item, LineError>
    ensures { Reads said result (item_of line.now) }
{
    let (name, rest) = item_words(line);
    match name {
        b"" => Ok(Item::Nothing),
        b"read" => Ok(Item::Read(only_bytes(heap, rest)?)),
        _ => Err(LineFault::UnknownItem.into()),
    }
}
