// The reader of commands.
ghost use Rattle.std.specs.Prelude.{◌≡◌};
ghost use Rattle.ubp.specs.Frames.{Fills, verdict};
ghost use Rattle.ubp.specs.Theorems.{ReadBack};

use crate::read_cancel::read_cancel;
use crate::read_enter::read_enter;
use crate::read_replace::read_replace;
use crate::refusal::ReadRefusal;
use orders::command::Command;

// The first byte chooses the command, and the rest are its fields. It is filled in where the caller holds it: an answer that carries it would be moved twice.
fn fill(frame: &[u8], into: &mut Command) -> Result<(), ReadRefusal>
    ensures answer { result ≡ verdict frame.now }
    ensures filled { Fills frame.now result into.old into.new }
{
    match frame {
        [] => return Err(ReadRefusal::WrongLength),
        [b'o', fields @ ..] => *into = Command::Enter(read_enter(fields)?),
        [b'u', fields @ ..] => *into = Command::Replace(read_replace(fields)?),
        [b'X', fields @ ..] => *into = Command::Cancel(read_cancel(fields)?),
        _ => return Err(ReadRefusal::UnknownType),
    }
    Ok(())
}

// A rule of the project: the caller holds a lawful command, which the reader fills, and the answer is a plain Result.
// Reads a frame into the caller's command. A refusal leaves that as it was. The frame of any command is read back as that command.
pub fn read(frame: &[u8], into: &mut Command) -> Result<(), ReadRefusal>
    ensures answer { result ≡ verdict frame.now }
    ensures filled { Fills frame.now result into.old into.new }
    ensures back { ReadBack frame.now result into.new }
{
    fill(frame, into)
}
