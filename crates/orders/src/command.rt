// The commands that clients send.
ghost use Rattle.std.specs.Prelude.{◌≡◌, ◌^◌, ◌<◌, length, FitsSigned};
ghost use Rattle.std.specs.Int.{w32};

use crate::enter::EnterOrder;
use crate::fields::{CrossStyle, Lots, Peg, TimeInForce, Token};

// Any of the three. Every command that exists has only values that the reader takes.
#[derive(Clone, Copy, PartialEq, Eq, Debug)]
pub enum Command {
    Enter(EnterOrder),
    Replace(ReplaceOrder),
    Cancel(CancelOrder),
}

// Puts another order in the place of one that rests.
#[derive(Clone, Copy, PartialEq, Eq, Debug)]
pub struct ReplaceOrder {
    pub existing: Token,
    pub token: Token,
    pub shares: u32,
    pub price: i32,
    pub time: TimeInForce,
    pub minimum: u32,
    pub style: CrossStyle,
    pub peg: Peg,
    pub lots: Lots,
    ghost sized: { (length existing ≡ 14) × (length token ≡ 14) },
    ghost fits: { (shares < 2 ^ 32) × (minimum < 2 ^ 32) },
    ghost priced: { FitsSigned w32 price },
}

// Takes a resting order out.
#[derive(Clone, Copy, PartialEq, Eq, Debug)]
pub struct CancelOrder {
    pub token: Token,
    ghost sized: { length token ≡ 14 },
}
