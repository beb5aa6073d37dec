// A list of records under keys, in memory that its maker lends: it allocates nothing and cannot grow past what it was lent.
ghost use Rattle.std.specs.Prelude.{◌≤◌, length, min};

mod calls;

// The records of the list, oldest first, are the first `len` cells, of which `most` may be used; past the end of the memory `most` means that end.
// Lent cells with a length beside them, and no Vec: the list must run with no heap.
// No impl Model (tried): behind a view a caller no longer knows, once the list is gone, what the memory that it lent holds.
#[derive(Drop)]
pub struct List<'a, T> {
    cells: &'a mut [T],
    len: usize,
    most: usize,
    ghost within: { len ≤ min most (length cells.now) },
}

// Why a record was not taken in: its key is held by another, or there is no place left. Where both hold, it is `Held`.
#[derive(Clone, Copy, Debug, PartialEq, Eq)]
pub enum NotPushed {
    Held,
    Full,
}

// Why nothing was written: there is no record at a place.
#[derive(Clone, Copy, Debug, PartialEq, Eq)]
pub struct NoRecord;
