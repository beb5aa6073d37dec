// A slip: one answer to a client.
use crate::fields::{Terms, Token};

// What a slip tells: accepted (a), replaced (u), executed (E), cancelled (C), cancel rejected (I), order rejected (J).
#[derive(Clone, Copy, PartialEq, Eq, Debug)]
pub enum SlipKind {
    Accepted,
    Replaced,
    Executed,
    Cancelled,
    CancelRejected,
    Rejected,
}

// The letter on a slip: of an order that lives; of an execution that added or removed; why an order was cancelled (immediate, user, minimum); why it was rejected (unknown stock, too
// many shares, minimum, price, other); none, which is a space and as much a letter as the others.
#[derive(Clone, Copy, PartialEq, Eq, Debug)]
pub enum Letter {
    Blank,
    Live,
    Added,
    Removed,
    ImmediateRest,
    UserRequest,
    BelowMinimum,
    UnknownStock,
    TooManyShares,
    BadMinimum,
    BadPrice,
    Other,
}

// The order that a replaced slip took out.
#[derive(Clone, Copy, PartialEq, Eq, Debug)]
pub struct OldOrder {
    pub token: Token,
    pub number: u64,
    pub shares: u32,
}

// What a kind lacks is 0 or spaces; terms that it lacks are `None`. One flat record for all kinds is a rule of the project: a slip of any kind with any values has its message.
#[derive(Clone, Copy, PartialEq, Eq, Debug)]
pub struct Slip {
    pub kind: SlipKind,
    pub clock: u64,
    pub client: u32,
    pub token: Token,
    pub number: u64,
    pub shares: u32,
    pub price: i32,
    pub letter: Letter,
    pub match_number: u64,
    pub old: OldOrder,
    pub terms: Option<Terms>,
}
