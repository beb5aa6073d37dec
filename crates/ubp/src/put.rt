// Writing into a part of the host's buffer.
ghost use Rattle.std.specs.Prelude.{◌≡◌, ◌+◌, ◌≤◌, length};
ghost use Rattle.ubp.specs.Writing.{put_at};

// Writes the bytes from `at` on, and leaves all others.
pub(crate) fn put(out: &mut [u8], at: usize, bytes: &[u8])
    requires { at + length bytes.now ≤ length out.old }
    ensures { out.new ≡ put_at at bytes.now out.old }
{
    out[at..at + bytes.len()].copy_from_slice(bytes);
}
