// The reader of the command that enters an order.
ghost use Rattle.std.specs.Prelude.{◌≡◌, true, false, Some, MatchResult};
ghost use Rattle.orders.specs.Codes.{constraint_of};
ghost use Rattle.ubp.specs.Commands.{beside_peg, enter_type, enter_fields};
ghost use Rattle.ubp.specs.Frames.{Reads};
ghost use Rattle.ubp.specs.declared.refusal.ReadRefusal.TheVariants.{BadField};

use crate::fields::{bytes, coded, number, reserved, signed};
use crate::refusal::ReadRefusal;
use orders::enter::EnterOrder;
use orders::fields::{Constraint, Terms};

// The constraint that a byte states beside a peg's byte: beside a midpoint peg any, beside another byte none.
fn constraint_beside(peg: u8, offset: usize, byte: u8) -> Result<Constraint, ReadRefusal>
    ensures { MatchResult result (λ v. (beside_peg byte peg ≡ true) × (constraint_of byte ≡ Some v)) (λ e. (e ≡ BadField offset) × (beside_peg byte peg ≡ false)) }
{
    let constraint = coded(offset, byte)?;
    if peg == b'M' || constraint == Constraint::Unstated {
        Ok(constraint)
    } else {
        Err(ReadRefusal::BadField(offset))
    }
}

// Reads all that follows the first byte, up to the first field that holds what it may not. An offset counts from the frame's first byte, a place in `fields` from the second.
#[tactic(auto, unfolding(crate::specs::Commands::enter_fields))]
pub(crate) fn read_enter(fields: &[u8]) -> Result<EnterOrder, ReadRefusal>
    ensures { Reads enter_type enter_fields fields.now result }
{
    if fields.len() != 66 {
        return Err(ReadRefusal::WrongLength);
    }
    let side = coded(15, fields[14])?;
    let time = coded(30, number(&fields[29..]))?;
    reserved(38, &fields[37..38], b' ')?;
    let capacity = coded(39, fields[38])?;
    reserved(40, &fields[39..40], b' ')?;
    reserved(45, &fields[44..45], b' ')?;
    let constraint = constraint_beside(fields[54], 46, fields[45])?;
    reserved(47, &fields[46..47], b' ')?;
    let leaves = coded(48, fields[47])?;
    reserved(49, &fields[48..53], b' ')?;
    let style = coded(54, fields[53])?;
    let peg = coded(55, fields[54])?;
    reserved(56, &fields[55..56], b' ')?;
    reserved(57, &fields[56..60], 0)?;
    let grade = coded(61, fields[60])?;
    reserved(62, &fields[61..65], 0)?;
    let lots = coded(66, fields[65])?;
    Ok(EnterOrder {
        token: bytes(&fields[0..]),
        shares: number(&fields[15..]),
        price: signed(&fields[25..]),
        terms: Terms {
            side,
            stock: bytes(&fields[19..]),
            time,
            firm: bytes(&fields[33..]),
            capacity,
            minimum: number(&fields[40..]),
            constraint,
            leaves,
            style,
            peg,
            grade,
            lots,
        },
    })
}
