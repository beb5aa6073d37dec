// The terms of an order.
use crate::price::PriceWords;
use crate::show::{show_code, show_field, show_words};
use crate::text::TextWords;
use orders::fields::{CrossStyle, Lots, Peg, Terms, TimeInForce};
use std::fmt;

// How much an order or a replacement trades, at what price and for how long.
#[derive(Clone, Copy)]
pub(crate) struct LimitWords {
    pub shares: u32,
    pub price: i32,
    pub peg: Peg,
    pub time: TimeInForce,
    pub minimum: u32,
}

// With whom an order or a replacement may trade, and in what lots.
#[derive(Clone, Copy)]
pub(crate) struct CrossWords {
    pub style: CrossStyle,
    pub lots: Lots,
}

// The terms of an order, which are told in parts.
#[derive(Clone, Copy)]
pub(crate) struct TermsWords<'a>(pub &'a Terms);

impl fmt::Display for LimitWords {
    fn fmt<W: fmt::Write>(&self, f: &mut fmt::Formatter<W>) -> fmt::Result {
        show_field(f, "shares", &self.shares)?;
        show_field(f, "price", &PriceWords(self.price))?;
        show_words(f, "peg", self.peg)?;
        show_words(f, "time in force", self.time)?;
        show_field(f, "minimum", &self.minimum)
    }
}

impl fmt::Display for CrossWords {
    fn fmt<W: fmt::Write>(&self, f: &mut fmt::Formatter<W>) -> fmt::Result {
        let letter = char::from(u8::from(self.style));
        show_code(f, "cross style", &letter, self.style)?;
        show_words(f, "lots", self.lots)
    }
}

impl TermsWords<'_> {
    // What is to be traded.
    pub(crate) fn show_trade<W: fmt::Write>(
        &self,
        shares: u32,
        price: i32,
        f: &mut fmt::Formatter<W>,
    ) -> fmt::Result {
        let terms = self.0;
        show_words(f, "side", terms.side)?;
        show_field(f, "stock", &TextWords(&terms.stock))?;
        let limit = LimitWords {
            shares,
            price,
            peg: terms.peg,
            time: terms.time,
            minimum: terms.minimum,
        };
        write!(f, "{limit}")
    }

    // What an order states beside its minimum and its peg.
    pub(crate) fn show_leaves<W: fmt::Write>(&self, f: &mut fmt::Formatter<W>) -> fmt::Result {
        show_words(f, "leaves mode", self.0.leaves)?;
        show_words(f, "constraint", self.0.constraint)
    }

    // Who sends the order, and with whom it may trade.
    pub(crate) fn show_sender<W: fmt::Write>(&self, f: &mut fmt::Formatter<W>) -> fmt::Result {
        let terms = self.0;
        show_field(f, "firm", &TextWords(&terms.firm))?;
        show_words(f, "capacity", terms.capacity)?;
        let cross = CrossWords {
            style: terms.style,
            lots: terms.lots,
        };
        write!(f, "{cross}")
    }

    // Which conditional indications the order invites.
    pub(crate) fn show_grade<W: fmt::Write>(&self, f: &mut fmt::Formatter<W>) -> fmt::Result {
        let grade = self.0.grade;
        let number = u8::from(grade);
        show_code(f, "invite grade", &number, grade)
    }
}
