// What the words of an item say.
ghost use Rattle.std.specs.Prelude.{◌≡◌, IfOk, vec_items};
ghost use Rattle.session.specs.Errors.{Finds, Reads};
ghost use Rattle.session.specs.Scan.{rest_of};
ghost use Rattle.session.specs.Words.{name_of, after_name, only_word, bytes_of, flag_of, first_word, first_number, only_number, only_bytes, only_flag};

use crate::error::LineError;
use crate::fault::LineFault;
use crate::hex::decode;
use crate::number::{Unsigned, number};
use crate::scan::{before_comment, next_word};
use std::alloc::Global;

// The name of a line's item, which is empty where the line says nothing, and what follows the name.
pub(crate) fn item_words(line: &[u8]) -> (&[u8], &[u8])
    ensures name { result.0.now ≡ name_of line.now }
    ensures rest { result.1.now ≡ after_name line.now }
{
    next_word(before_comment(line))
}

// The first word, which may not be missing, and what follows it.
fn first_word(text: &[u8]) -> Result<(&[u8], &[u8]), LineFault>
    ensures word { Finds (λ p. p.0.now) result (first_word text.now) }
    ensures rest { IfOk result (λ p. p.1.now ≡ rest_of text.now) }
{
    let (word, rest) = next_word(text);
    if word.is_empty() {
        Err(LineFault::MissingWord)
    } else {
        Ok((word, rest))
    }
}

// The word of a text that has exactly one.
fn only_word(text: &[u8]) -> Result<&[u8], LineFault>
    ensures { Finds (λ w. w.now) result (only_word text.now) }
{
    let (word, rest) = first_word(text)?;
    let (extra, _) = next_word(rest);
    if extra.is_empty() {
        Ok(word)
    } else {
        Err(LineFault::ExtraWord)
    }
}

// The bytes that a word stands for: digits, or `-` for none.
fn word_bytes(heap: Global, word: &[u8]) -> Result<Vec<u8>, LineError>
    ensures { Reads vec_items result (bytes_of word.now) }
{
    match word {
        b"-" => Ok(Vec::new(heap)),
        _ => decode(heap, word),
    }
}

// The flag that a word stands for: `1` or `0`, and nothing else.
fn word_flag(word: &[u8]) -> Result<bool, LineFault>
    ensures { result ≡ flag_of word.now }
{
    match word {
        b"1" => Ok(true),
        b"0" => Ok(false),
        _ => Err(LineFault::BadNumber),
    }
}

// The number in the first word, and what follows the word.
pub(crate) fn first_number<N: Unsigned>(text: &[u8]) -> Result<(N, &[u8]), LineFault>
    ensures value { Finds (λ p. N.value p.0) result (first_number N.most text.now) }
    ensures rest { IfOk result (λ p. p.1.now ≡ rest_of text.now) }
{
    let (word, rest) = first_word(text)?;
    Ok((number(word)?, rest))
}

// The number that the only word of a text writes.
pub(crate) fn only_number<N: Unsigned>(text: &[u8]) -> Result<N, LineFault>
    ensures { Finds N.value result (only_number N.most text.now) }
{
    number(only_word(text)?)
}

// The flag that the only word of a text stands for.
pub(crate) fn only_flag(text: &[u8]) -> Result<bool, LineFault>
    ensures { result ≡ only_flag text.now }
{
    word_flag(only_word(text)?)
}

// The bytes that the only word of a text stands for.
#[tactic(auto, unfolding(crate::specs::Words::only_bytes))]
pub(crate) fn only_bytes(heap: Global, text: &[u8]) -> Result<Vec<u8>, LineError>
    ensures { Reads vec_items result (only_bytes text.now) }
{
    word_bytes(heap, only_word(text)?)
}
