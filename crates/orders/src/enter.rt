// The command that enters an order.
ghost use Rattle.std.specs.Prelude.{◌≡◌, ◌^◌, ◌<◌, length, IsTrue, FitsSigned};
ghost use Rattle.std.specs.Int.{w32};
ghost use Rattle.orders.specs.Pegs.{may_state};

use crate::fields::{Terms, Token};

// Brings an order in. Its constraint is one that its peg may state; the other facts say only that each number and text is one of its type.
// They stand again in `ReplaceOrder`, each in one word of the library: a name over `length token ≡ 14` would only hide the 14.
#[derive(Clone, Copy, PartialEq, Eq, Debug)]
pub struct EnterOrder {
    pub token: Token,
    pub shares: u32,
    pub price: i32,
    pub terms: Terms,
    ghost pegged: { IsTrue (may_state terms.peg terms.constraint) },
    ghost sized: { (length token ≡ 14) × (length terms.stock ≡ 6) × (length terms.firm ≡ 4) },
    ghost fits: { (shares < 2 ^ 32) × (terms.minimum < 2 ^ 32) },
    ghost priced: { FitsSigned w32 price },
}
