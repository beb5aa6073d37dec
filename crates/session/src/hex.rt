// Bytes as hex digits, and back.
ghost use Rattle.std.specs.Prelude.{◌≡◌, ◌<◌, [], ◌∷◌, IfSome, IfOk, Some, Ok, string_bytes, vec_items};
ghost use Rattle.session.specs.Errors.{Reads};
ghost use Rattle.session.specs.Hex.{digit_of, byte_of, hex_bytes, hex_text, letter};

use crate::error::LineError;
use crate::fault::LineFault;
use std::alloc::{AllocError, Global};
use std::fmt;

// The value of a digit, whose letter may be lower or upper case.
fn digit_value(digit: u8) -> Option<u8>
    ensures value { result ≡ digit_of digit }
    ensures small { IfSome result (λ d. d < 16) }
{
    char::from(digit).to_digit(16).map(|d| d as u8)
}

// The byte that two digits spell.
fn byte_value(high: u8, low: u8) -> Option<u8>
    ensures { result ≡ byte_of high low }
{
    let first = digit_value(high)?;
    let second = digit_value(low)?;
    Some(first * 16 + second)
}

// The bytes that the digits spell. An odd digit at the end is reported only where no digit before it is wrong.
#[tactic(auto, using(crate::proofs::Decoding::after_pair))]
pub fn decode(heap: Global, digits: &[u8]) -> Result<Vec<u8>, LineError>
    ensures { Reads vec_items result (hex_bytes digits.now) }
{
    let mut bytes = Vec::new(heap);
    let mut rest = digits;
    while let [high, low, after @ ..] = rest {
        let byte = byte_value(*high, *low).ok_or(LineFault::BadDigit)?;
        bytes.push(byte)?;
        rest = after;
    }
    if rest.is_empty() {
        Ok(bytes)
    } else {
        Err(LineFault::OddDigits.into())
    }
}

// The lower-case digit of a value, as text: `write_char` of a character (tried) takes a quarter more of a run.
fn digit_text(value: u8) -> &'static str
    requires { value < 16 }
    ensures { result.now ≡ letter value ∷ [] }
{
    match value {
        0 => "0",
        1 => "1",
        2 => "2",
        3 => "3",
        4 => "4",
        5 => "5",
        6 => "6",
        7 => "7",
        8 => "8",
        9 => "9",
        10 => "a",
        11 => "b",
        12 => "c",
        13 => "d",
        14 => "e",
        _ => "f",
    }
}

// Bytes that print as digits, in lower case.
#[derive(Clone, Copy)]
pub struct Hex<'a>(pub &'a [u8]);

impl fmt::Display for Hex<'_> {
    ghost output = { λ hex. Some (hex_text hex.0.now) };

    fn fmt<W: fmt::Write>(&self, f: &mut fmt::Formatter<W>) -> fmt::Result {
        for &byte in self.0 {
            // `{byte:02x}` (tried) takes more than twice the time of the two digits.
            f.write_str(digit_text(byte / 16))?;
            f.write_str(digit_text(byte % 16))?;
        }
        Ok(())
    }
}

// The bytes as lower-case digits, which decode to the same bytes.
#[tactic(auto, using(crate::proofs::Encoding::decodes))]
pub fn encode(heap: Global, bytes: &[u8]) -> Result<String, AllocError>
    ensures text { IfOk result (λ s. string_bytes s ≡ hex_text bytes.now) }
    ensures again { IfOk result (λ s. hex_bytes (string_bytes s) ≡ Ok bytes.now) }
{
    Hex(bytes).to_string(heap)
}
