// What one line of a book's session file says. The words of an item are taken from left to right, and the first that is
// missing or wrong is reported; at the last, a word that follows it is reported before what is wrong in it.
ghost use Rattle.session.specs.BookLines.{frame_of, ban_of, grid_of, item_of, said};
ghost use Rattle.session.specs.Errors.{Finds, Reads};

use crate::book_item::{BanLine, BookItem, FrameLine, GridLine};
use crate::error::LineError;
use crate::fault::LineFault;
use crate::words::{first_number, item_words, only_bytes, only_flag, only_number};
use std::alloc::Global;

// The item `frame` with what follows its name.
#[tactic(auto, unfolding(crate::specs::BookLines::frame_of))]
fn frame_item(heap: Global, text: &[u8]) -> Result<BookItem, LineError>
    ensures { Reads said result (frame_of text.now) }
{
    let (clock, rest) = first_number(text)?;
    let (places, rest) = first_number(rest)?;
    let (client, rest) = first_number(rest)?;
    let (category, rest) = first_number(rest)?;
    let bytes = only_bytes(heap, rest)?;
    Ok(BookItem::Frame(FrameLine {
        clock,
        places,
        client,
        category,
        bytes,
    }))
}

// The item `ban` with what follows its name.
fn ban_item(text: &[u8]) -> Result<BookItem, LineFault>
    ensures { Finds said result (ban_of text.now) }
{
    let (first, rest) = first_number(text)?;
    let second = only_number(rest)?;
    Ok(BookItem::Ban(BanLine { first, second }))
}

// The item `grid` with what follows its name.
#[tactic(auto, unfolding(crate::specs::BookLines::grid_of))]
fn grid_item(text: &[u8]) -> Result<BookItem, LineFault>
    ensures { Finds said result (grid_of text.now) }
{
    let (depth, rest) = first_number(text)?;
    let (category, rest) = first_number(rest)?;
    let (other, rest) = first_number(rest)?;
    let meets = only_flag(rest)?;
    Ok(BookItem::Grid(GridLine {
        depth,
        category,
        other,
        meets,
    }))
}

// What a line says, without the line feed at its end.
pub fn parse(heap: Global, line: &[u8]) -> Result<BookItem, LineError>
    ensures { Reads said result (item_of line.now) }
{
    let (name, rest) = item_words(line);
    match name {
        b"" => Ok(BookItem::Nothing),
        b"read" => Ok(BookItem::Read(only_bytes(heap, rest)?)),
        b"frame" => frame_item(heap, rest),
        b"ban" => Ok(ban_item(rest)?),
        b"grid" => Ok(grid_item(rest)?),
        _ => Err(LineFault::UnknownItem.into()),
    }
}
