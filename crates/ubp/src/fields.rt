// Field readers: each takes a part of the frame that starts at its field, by a rule of the project. So a reader names the field's offset in the frame beside its place in the part, and no struct over the fields hides either.
ghost use Rattle.std.specs.Prelude.{◌≡◌, ◌≤◌, true, false, length, take, Ok, Err, MatchResult};
ghost use Rattle.std.proofs.Common.{to_z};
ghost use Rattle.std.specs.Int.{w32};
ghost use Rattle.ubp.specs.Bytes.{big4, all_are};
ghost use Rattle.orders.specs.declared.codes.Unlisted.{Unlisted};
ghost use Rattle.ubp.specs.declared.refusal.ReadRefusal.TheVariants.{BadField};

use crate::refusal::ReadRefusal;
use orders::codes::Unlisted;

pub(crate) fn bytes<const N: usize>(part: &[u8]) -> [u8; N]
    requires { N ≤ length part.now }
    ensures { result ≡ take N part.now }
{
    *part.first_chunk().unwrap()
}

// `number` and `signed` stay two: std has no trait for `from_be_bytes`, and one of our own is longer than both.
pub(crate) fn number(part: &[u8]) -> u32
    requires { 4 ≤ length part.now }
    ensures { result ≡ big4 part.now }
{
    u32::from_be_bytes(bytes(part))
}

pub(crate) fn signed(part: &[u8]) -> i32
    requires { 4 ≤ length part.now }
    ensures { result ≡ to_z w32 (big4 part.now) }
{
    i32::from_be_bytes(bytes(part))
}

// Whether all bytes of the part are b.
fn filled(part: &[u8], b: u8) -> bool
    ensures { result ≡ all_are b part.now }
{
    part.iter().all(|x| *x == b)
}

// A reserved part is b alone; another is refused at its offset in the frame.
pub(crate) fn reserved(offset: usize, part: &[u8], b: u8) -> Result<(), ReadRefusal>
    ensures { MatchResult result (λ _. all_are b part.now ≡ true) (λ e. (e ≡ BadField offset) × (all_are b part.now ≡ false)) }
{
    if filled(part, b) {
        Ok(())
    } else {
        Err(ReadRefusal::BadField(offset))
    }
}

// The value that a code stands for; a code that stands for none is refused at its offset in the frame.
pub(crate) fn coded<C, T: TryFrom<C, Error = Unlisted>>(
    offset: usize,
    code: C,
) -> Result<T, ReadRefusal>
    ensures { MatchResult result (λ v. T.try_from_gives code (Ok v)) (λ e. (e ≡ BadField offset) × (d : Unlisted) × T.try_from_gives code (Err d)) }
{
    T::try_from(code).map_err(|_| ReadRefusal::BadField(offset))
}
