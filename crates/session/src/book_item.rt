// The items of a book's session file. A category is a number here, as the line has it: whether there is such a category is asked by the policy and by the book, which refuse with numbers of their own.

#[derive(PartialEq, Eq, Debug, Drop)]
pub enum BookItem {
    // a blank line, or a comment alone
    Nothing,
    // `read HEX`: a frame for the reader and the command writer alone
    Read(Vec<u8>),
    // `frame CLOCK PLACES CLIENT CATEGORY HEX`: a frame for the book
    Frame(FrameLine),
    // `ban CLIENT CLIENT`: two clients that may not meet
    Ban(BanLine),
    // `grid DEPTH CATEGORY OTHER 0|1`: whether a category meets another
    Grid(GridLine),
}

#[derive(PartialEq, Eq, Debug, Drop)]
pub struct FrameLine {
    pub clock: u64,
    // how many slips there is room for
    pub places: usize,
    pub client: u32,
    pub category: u8,
    pub bytes: Vec<u8>,
}

#[derive(Clone, Copy, PartialEq, Eq, Debug)]
pub struct BanLine {
    pub first: u32,
    pub second: u32,
}

#[derive(Clone, Copy, PartialEq, Eq, Debug)]
pub struct GridLine {
    pub depth: u8,
    pub category: u8,
    pub other: u8,
    // whether `other` is added to those that `category` meets, or dropped
    pub meets: bool,
}
