// The quotes, found by their stock.
ghost use Rattle.std.specs.Prelude.{◌≡◌};
ghost use Rattle.resting.specs.Keys.{same_stock, stock_key};

use keyed::keys::Keyed;
use orders::fields::Stock;

// A stock's best bid and ask in the open market, in ten-thousandths of a dollar.
#[derive(Clone, Copy)]
pub struct Quote {
    pub stock: Stock,
    pub bid: i32,
    pub ask: i32,
}

// What names a quote: each stock has one.
#[derive(Clone, Copy, PartialEq, Eq)]
pub struct StockKey {
    pub stock: Stock,
}

impl Keyed for Quote {
    type Key = StockKey;

    ghost key = { stock_key };

    fn key_of(&self) -> StockKey
        ensures key { result ≡ stock_key self.now }
        // What the derived `==` of two keys says.
        ensures same { (other : StockKey)
            → ⟦<StockKey as PartialEq>⟧.eq result other ≡ same_stock result other }
    {
        StockKey { stock: self.stock }
    }
}
