// The orders that frames bring, kept in the order in which they came. No book is kept: nothing trades, and no order is replaced or cancelled.
use keyed::lent::{List, NotPushed};
use orders::codes::Unlisted;
use orders::command::Command;
use orders::fields::{
    Capacity, Constraint, CrossStyle, InviteGrade, LeavesMode, Lots, Peg, Side, Terms, TimeInForce,
};
use orders::party::Category;
use resting::resident::Resident;
use session::book_item::FrameLine;
use std::fmt;

// How many orders are kept at most.
pub(crate) const MOST_ORDERS: usize = 1024;

// What lies in a place that is not in use.
pub(crate) const VACANT: Resident = Resident {
    number: 0,
    client: 0,
    category: Category::One,
    token: [b' '; 14],
    shares: 0,
    price: 0,
    terms: Terms {
        side: Side::Buy,
        stock: [b' '; 6],
        time: TimeInForce::Immediate,
        firm: [b' '; 4],
        capacity: Capacity::Agency,
        minimum: 0,
        constraint: Constraint::Unstated,
        leaves: LeavesMode::NotStated,
        style: CrossStyle::All,
        peg: Peg::Unpegged,
        grade: InviteGrade::Nobody,
        lots: Lots::AnyLot,
    },
    left: 0,
};

// Why a frame's order is not kept.
#[derive(Clone, Copy)]
pub(crate) enum NotKept {
    NoOrder,
    NoCategory,
    Refused(NotPushed),
}

impl From<Unlisted> for NotKept {
    fn from(_value: Unlisted) -> NotKept {
        NotKept::NoCategory
    }
}

impl From<NotPushed> for NotKept {
    fn from(value: NotPushed) -> NotKept {
        NotKept::Refused(value)
    }
}

impl fmt::Display for NotKept {
    fn fmt<W: fmt::Write>(&self, f: &mut fmt::Formatter<W>) -> fmt::Result {
        match self {
            NotKept::NoOrder => write!(f, "the command brings no order"),
            NotKept::NoCategory => write!(f, "the source category is not 1 to 5"),
            NotKept::Refused(NotPushed::Held) => write!(f, "an order of the client has this token"),
            NotKept::Refused(NotPushed::Full) => write!(f, "{MOST_ORDERS} orders are kept already"),
        }
    }
}

// Keeps the order of an enter command, under the next number, which is answered.
pub(crate) fn keep(
    orders: &mut List<'_, Resident>,
    line: &FrameLine,
    command: &Command,
) -> Result<u64, NotKept> {
    let Command::Enter(order) = *command else {
        return Err(NotKept::NoOrder);
    };
    let number = (orders.len() as u64).saturating_add(1);
    orders.push(Resident {
        number,
        client: line.client,
        category: Category::try_from(line.category)?,
        token: order.token,
        shares: order.shares,
        price: order.price,
        terms: order.terms,
        left: order.shares,
    })?;
    Ok(number)
}
