// Reading a frame and writing it again.
ghost use Rattle.ubp.specs.Theorems.{Restores};

use crate::read::read;
use crate::refusal::Refusal;
use crate::write::write;
use orders::command::{CancelOrder, Command};

// Reads a frame and writes the command that it holds to the front of the host's buffer: the frame is restored, and its length answered. A refusal leaves the buffer as it was.
pub fn restore(frame: &[u8], out: &mut [u8]) -> Result<usize, Refusal>
    ensures { Restores frame.now out.old out.new result }
{
    let mut command = Command::Cancel(CancelOrder { token: [b' '; 14] });
    read(frame, &mut command)?;
    Ok(write(&command, out)?)
}
