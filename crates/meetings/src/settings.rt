// The settings of the policies in words.
use session::book_item::{BanLine, GridLine};
use std::fmt;

#[derive(Clone, Copy)]
pub(crate) struct BanWords(pub BanLine);

#[derive(Clone, Copy)]
pub(crate) struct GridWords(pub GridLine);

impl fmt::Display for BanWords {
    fn fmt<W: fmt::Write>(&self, f: &mut fmt::Formatter<W>) -> fmt::Result {
        let BanLine { first, second } = self.0;
        write!(f, "Ban: clients {first} and {second} do not meet")
    }
}

impl fmt::Display for GridWords {
    fn fmt<W: fmt::Write>(&self, f: &mut fmt::Formatter<W>) -> fmt::Result {
        let GridLine {
            category,
            other,
            meets,
            ..
        } = self.0;
        let verb = if meets { "meets" } else { "does not meet" };
        write!(f, "Grid: category {category} {verb} {other}")
    }
}
