// The reader of the command that cancels an order.
ghost use Rattle.ubp.specs.Commands.{cancel_type, cancel_fields};
ghost use Rattle.ubp.specs.Frames.{Reads};

use crate::fields::{bytes, reserved};
use crate::refusal::ReadRefusal;
use orders::command::CancelOrder;

// Reads all that follows the first byte.
#[tactic(auto, unfolding(crate::specs::Commands::cancel_fields))]
pub(crate) fn read_cancel(fields: &[u8]) -> Result<CancelOrder, ReadRefusal>
    ensures { Reads cancel_type cancel_fields fields.now result }
{
    if fields.len() != 18 {
        return Err(ReadRefusal::WrongLength);
    }
    reserved(15, &fields[14..18], 0)?;
    Ok(CancelOrder {
        token: bytes(&fields[0..]),
    })
}
