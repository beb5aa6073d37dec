// Messages, and how any of them is written to the host's buffer.
ghost use Rattle.std.specs.Prelude.{◌≡◌, ℕ, ◌≤◌, List, length};
ghost use Rattle.ubp.specs.Writing.{Begun, Writes};

use crate::refusal::WriteRefusal;

// What has a message of its own. Fields are put at offsets and not by a cursor, since the offsets are the layout's own.
pub(crate) trait Message {
    // How many bytes the message has.
    ghost size: { Self → ℕ };

    // Its bytes.
    ghost bytes: { Self → List ℕ };

    fn size(&self) -> usize
        ensures { result ≡ size self.now };

    // Writes the message to the front of a buffer that has room for it.
    fn put(&self, out: &mut [u8])
        requires { size self.now ≤ length out.old }
        ensures { Begun (size self.now) (bytes self.now) out.old out.new };
}

// Writes a message to the front of the buffer, and answers its length. A buffer that is too short is left as it was.
pub(crate) fn write_message<M: Message>(message: &M, out: &mut [u8]) -> Result<usize, WriteRefusal>
    ensures { Writes (M.size message.now) (M.bytes message.now) out.old out.new result }
{
    let size = message.size();
    if out.len() < size {
        return Err(WriteRefusal::ShortBuffer);
    }
    message.put(out);
    Ok(size)
}
