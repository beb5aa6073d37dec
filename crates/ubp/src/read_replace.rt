// The reader of the command that replaces an order.
ghost use Rattle.ubp.specs.Commands.{replace_type, replace_fields};
ghost use Rattle.ubp.specs.Frames.{Reads};

use crate::fields::{bytes, coded, number, reserved, signed};
use crate::refusal::ReadRefusal;
use orders::command::ReplaceOrder;

// Reads all that follows the first byte, up to the first field that holds what it may not. An offset counts from the frame's first byte, a place in `fields` from the second.
#[tactic(auto, unfolding(crate::specs::Commands::replace_fields))]
pub(crate) fn read_replace(fields: &[u8]) -> Result<ReplaceOrder, ReadRefusal>
    ensures { Reads replace_type replace_fields fields.now result }
{
    if fields.len() != 59 {
        return Err(ReadRefusal::WrongLength);
    }
    let time = coded(37, number(&fields[36..]))?;
    reserved(41, &fields[40..41], b' ')?;
    reserved(42, &fields[41..42], b' ')?;
    let style = coded(47, fields[46])?;
    let peg = coded(48, fields[47])?;
    reserved(49, &fields[48..49], b' ')?;
    reserved(50, &fields[49..53], 0)?;
    reserved(54, &fields[53..54], b' ')?;
    reserved(55, &fields[54..58], 0)?;
    let lots = coded(59, fields[58])?;
    Ok(ReplaceOrder {
        existing: bytes(&fields[0..]),
        token: bytes(&fields[14..]),
        shares: number(&fields[28..]),
        price: signed(&fields[32..]),
        time,
        minimum: number(&fields[42..]),
        style,
        peg,
        lots,
    })
}
