// Decimal numbers, of digits alone: the library's `parse` takes a sign too.
ghost use Rattle.std.specs.Prelude.{◌≡◌, ℕ, ◌<◌, ◌≤◌, ◌^◌, Result, MatchResult};
ghost use Rattle.std.specs.declared.num.TryFromIntError.{TryFromIntError};
ghost use Rattle.std.proofs.Common.{rules};
ghost use Rattle.session.specs.Numbers.{number_of, appended_to};
ghost use Rattle.session.specs.Errors.{Finds};

use crate::fault::LineFault;
use std::num::TryFromIntError;

// The unsigned types that a word may write a number of.
pub(crate) trait Unsigned: Copy + TryFrom<u64, Error = TryFromIntError> {
    // the number that a value is
    ghost value: { Self → ℕ };

    // the largest number that the type holds
    ghost most: { ℕ };

    // The largest fits 64 bits, and a number of 64 bits converts where it is at most the largest.
    ghost converts: { (most < 2 ^ 64) × ((n : ℕ) (r : Result Self TryFromIntError) → n < 2 ^ 64 → Self.try_from_gives n r → MatchResult r (λ x. (value x ≡ n) × (n ≤ most)) (λ _. most < n)) };
}

impl Unsigned for u64 {
    ghost value = { λ n. n };

    ghost most = { 18446744073709551615 };

    ghost converts = { Prim.search rules };
}

impl Unsigned for usize {
    ghost value = { λ n. n };

    ghost most = { 18446744073709551615 };

    ghost converts = { Prim.search rules };
}

impl Unsigned for u32 {
    ghost value = { λ n. n };

    ghost most = { 4294967295 };

    ghost converts = { Prim.search rules };
}

impl Unsigned for u8 {
    ghost value = { λ n. n };

    ghost most = { 255 };

    ghost converts = { Prim.search rules };
}

// The number with one more digit at its end, in 64 bits.
fn appended(number: u64, digit: u8) -> Option<u64>
    ensures { result ≡ appended_to u64.MAX number digit }
{
    match digit {
        b'0'..=b'9' => number.checked_mul(10)?.checked_add(u64::from(digit - b'0')),
        _ => None,
    }
}

// The number that a word writes in decimal digits, in 64 bits.
#[tactic(auto, using(crate::proofs::Numerals::stops))]
fn decimal(word: &[u8]) -> Result<u64, LineFault>
    ensures { result ≡ number_of u64.MAX word.now }
{
    if word.is_empty() {
        return Err(LineFault::BadNumber);
    }
    let mut value = 0;
    for digit in word {
        value = appended(value, *digit).ok_or(LineFault::BadNumber)?;
    }
    Ok(value)
}

// The number that a word writes, if the type holds it.
#[tactic(auto, using(crate::proofs::Numerals::narrower))]
pub(crate) fn number<N: Unsigned>(word: &[u8]) -> Result<N, LineFault>
    ensures { Finds N.value result (number_of N.most word.now) }
{
    N::try_from(decimal(word)?).map_err(|_| LineFault::BadNumber)
}
