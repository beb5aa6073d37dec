// Answers, one field to a line: what the message of each kind tells.
use crate::fields::InWords;
use crate::price::PriceWords;
use crate::show::{show_code, show_field};
use crate::terms::TermsWords;
use crate::text::TextWords;
use orders::slip::{Slip, SlipKind};
use std::fmt;

// An answer in words.
#[derive(Clone, Copy)]
pub struct SlipWords<'a>(pub &'a Slip);

impl SlipWords<'_> {
    fn show_head<W: fmt::Write>(&self, f: &mut fmt::Formatter<W>) -> fmt::Result {
        let slip = self.0;
        let letter = char::from(u8::from(slip.kind));
        let kind = slip.kind.words();
        writeln!(f, "  Answer {letter}: {kind}")?;
        show_field(f, "clock", &slip.clock)?;
        show_field(f, "token", &TextWords(&slip.token))
    }

    // Why, or in which state.
    fn show_letter<W: fmt::Write>(&self, f: &mut fmt::Formatter<W>) -> fmt::Result {
        let letter = self.0.letter;
        let code = char::from(u8::from(letter));
        show_code(f, "letter", &code, letter)
    }

    fn show_order<W: fmt::Write>(&self, f: &mut fmt::Formatter<W>) -> fmt::Result {
        let slip = self.0;
        show_field(f, "order number", &slip.number)?;
        match &slip.terms {
            None => show_field(f, "terms", &"none"),
            Some(terms) => {
                let terms = TermsWords(terms);
                terms.show_trade(slip.shares, slip.price, f)?;
                terms.show_sender(f)
            }
        }
    }

    fn show_accepted<W: fmt::Write>(&self, f: &mut fmt::Formatter<W>) -> fmt::Result {
        self.show_order(f)?;
        if let Some(terms) = &self.0.terms {
            TermsWords(terms).show_grade(f)?;
        }
        self.show_letter(f)
    }

    fn show_replaced<W: fmt::Write>(&self, f: &mut fmt::Formatter<W>) -> fmt::Result {
        show_field(f, "in place of", &TextWords(&self.0.old.token))?;
        self.show_order(f)?;
        self.show_letter(f)
    }

    fn show_executed<W: fmt::Write>(&self, f: &mut fmt::Formatter<W>) -> fmt::Result {
        let slip = self.0;
        show_field(f, "shares", &slip.shares)?;
        show_field(f, "price", &PriceWords(slip.price))?;
        show_field(f, "match number", &slip.match_number)?;
        self.show_letter(f)
    }

    fn show_cancelled<W: fmt::Write>(&self, f: &mut fmt::Formatter<W>) -> fmt::Result {
        show_field(f, "shares", &self.0.shares)?;
        self.show_letter(f)
    }
}

impl fmt::Display for SlipWords<'_> {
    fn fmt<W: fmt::Write>(&self, f: &mut fmt::Formatter<W>) -> fmt::Result {
        self.show_head(f)?;
        match self.0.kind {
            SlipKind::Accepted => self.show_accepted(f),
            SlipKind::Replaced => self.show_replaced(f),
            SlipKind::Executed => self.show_executed(f),
            SlipKind::Cancelled => self.show_cancelled(f),
            SlipKind::CancelRejected => Ok(()),
            SlipKind::Rejected => self.show_letter(f),
        }
    }
}
