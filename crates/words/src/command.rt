// Commands, one field to a line.
use crate::terms::{CrossWords, LimitWords, TermsWords};
use crate::text::TextWords;
use orders::command::{CancelOrder, Command, ReplaceOrder};
use orders::enter::EnterOrder;
use std::fmt;

// Room for the longest command. By a rule of the project a writer is lent a buffer and answers a length, so a buffer with a length beside it stands wherever a message is written.
pub(crate) const COMMAND_ROOM: usize = 67;

// A command in words.
#[derive(Clone, Copy)]
pub struct CommandWords<'a>(pub &'a Command);

fn show_enter<W: fmt::Write>(order: &EnterOrder, f: &mut fmt::Formatter<W>) -> fmt::Result {
    let token = TextWords(&order.token);
    writeln!(f, "  Enter order {token}")?;
    let terms = TermsWords(&order.terms);
    terms.show_trade(order.shares, order.price, f)?;
    terms.show_leaves(f)?;
    terms.show_sender(f)?;
    terms.show_grade(f)
}

fn show_replace<W: fmt::Write>(order: &ReplaceOrder, f: &mut fmt::Formatter<W>) -> fmt::Result {
    let existing = TextWords(&order.existing);
    let token = TextWords(&order.token);
    writeln!(f, "  Replace order {existing} -> {token}")?;
    let limit = LimitWords {
        shares: order.shares,
        price: order.price,
        peg: order.peg,
        time: order.time,
        minimum: order.minimum,
    };
    let cross = CrossWords {
        style: order.style,
        lots: order.lots,
    };
    write!(f, "{limit}{cross}")
}

fn show_cancel<W: fmt::Write>(order: &CancelOrder, f: &mut fmt::Formatter<W>) -> fmt::Result {
    let token = TextWords(&order.token);
    writeln!(f, "  Cancel order {token}")
}

impl fmt::Display for CommandWords<'_> {
    fn fmt<W: fmt::Write>(&self, f: &mut fmt::Formatter<W>) -> fmt::Result {
        // by copy (`match self.0` was tried): the borrow checker does not cover a pattern through a reference at a variant that has a ghost field
        match *self.0 {
            Command::Enter(order) => show_enter(&order, f),
            Command::Replace(order) => show_replace(&order, f),
            Command::Cancel(order) => show_cancel(&order, f),
        }
    }
}
