// The orders that rest, found by their client and token.
ghost use Rattle.std.specs.Prelude.{◌≡◌};
ghost use Rattle.resting.specs.Keys.{same_order, order_key};

use keyed::keys::Keyed;
use orders::fields::{Terms, Token};
use orders::party::Category;

// A resting order: as it was stated, under its order number, with the shares that are left of it.
#[derive(Clone, Copy)]
pub struct Resident {
    pub number: u64,
    pub client: u32,
    pub category: Category,
    pub token: Token,
    pub shares: u32,
    pub price: i32,
    pub terms: Terms,
    pub left: u32,
}

// What names an order in the book. Tokens are a client's own, so two clients may use the same one.
#[derive(Clone, Copy, PartialEq, Eq)]
pub struct OrderKey {
    pub client: u32,
    pub token: Token,
}

impl Keyed for Resident {
    type Key = OrderKey;

    ghost key = { order_key };

    fn key_of(&self) -> OrderKey
        ensures key { result ≡ order_key self.now }
        // What the derived `==` of two keys says.
        ensures same { (other : OrderKey)
            → ⟦<OrderKey as PartialEq>⟧.eq result other ≡ same_order result other }
    {
        OrderKey {
            client: self.client,
            token: self.token,
        }
    }
}
