// Bytes behind what is written.
ghost use Rattle.std.specs.Prelude.{◌<◌, [], ◌∷◌, length};
ghost use Rattle.basics.specs.Memory.{Put, Room};

// One byte at `at`; the place behind it.
pub fn push(out: &mut [u8], at: usize, b: u8) -> usize
    requires { at < length out.old }
    ensures { Put out.old at (b ∷ []) out.new result }
{
    out[at] = b;
    at + 1
}

// All bytes of a list.
pub fn put(from: &[u8], out: &mut [u8], at: usize) -> usize
    requires { Room out.old at from.now }
    ensures { Put out.old at from.now out.new result }
{
    // Byte by byte, since `copy_from_slice` would make the archive for C ask for `memmove`.
    for i in 0..from.len() {
        out[at + i] = from[i];
    }
    at + from.len()
}
