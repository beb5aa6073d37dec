// Prices in dollars.
ghost use Rattle.std.specs.Prelude.{◌≡◌, ◌+◌, ◌*◌, ◌<◌, pos, int_lt};
ghost use Rattle.words.specs.Prices.{signed};

use orders::fields::NO_LIMIT;
use std::fmt;

// A number of ten-thousandths of a dollar, taken apart.
#[derive(Clone, Copy)]
pub struct Dollars {
    // a price between 0 and -1 dollar has no other place for its sign
    pub negative: bool,
    pub whole: u32,
    pub parts: u32,
}

impl From<i32> for Dollars {
    // the value, small parts and the sign
    ghost from_gives = { λ price d.
        (signed d.negative (d.whole * 10000 + d.parts) ≡ price)
        × (d.parts < 10000)
        × (d.negative ≡ int_lt price (pos 0)) };

    fn from(price: i32) -> Dollars {
        let size = price.unsigned_abs();
        Dollars {
            negative: price < 0,
            whole: size / 10000,
            parts: size % 10000,
        }
    }
}

// An order's price: dollars with four decimals, or `no limit`.
#[derive(Clone, Copy)]
pub struct PriceWords(pub i32);

impl fmt::Display for PriceWords {
    fn fmt<W: fmt::Write>(&self, f: &mut fmt::Formatter<W>) -> fmt::Result {
        if self.0 == NO_LIMIT {
            return write!(f, "no limit");
        }
        let Dollars {
            negative,
            whole,
            parts,
        } = Dollars::from(self.0);
        let sign = if negative { "-" } else { "" };
        write!(f, "{sign}{whole}.{parts:04}")
    }
}
