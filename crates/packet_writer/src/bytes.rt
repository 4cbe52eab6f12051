// Bytes put into the output.
ghost use Rattle.std.specs.Prelude.{◌≡◌, [], ◌∷◌, ◌+◌, ◌/◌, ◌%◌, ◌≤◌, ◌<◌, length};
ghost use Rattle.lists.specs.Lists.{placed};
ghost use Rattle.packet.specs.Writing.{stuffing};

use lists::copy;

// Writes `n` bytes 0xFF into `out` from `at` on.
pub(crate) fn fill_at(n: usize, at: usize, out: &mut [u8])
    requires { at + n ≤ length out.old }
    ensures { out.new ≡ placed out.old at (stuffing n) }
{
    out[at..at + n].fill(255);
}

// Writes `s` into `out` from `at` on.
pub(crate) fn copy_at(s: &[u8], at: usize, out: &mut [u8])
    requires { at + length s.now ≤ length out.old }
    ensures { out.new ≡ placed out.old at s.now }
{
    copy(s, &mut out[at..]);
}

// Returns the upper and the lower byte of a number of 16 bits.
pub(crate) fn two_bytes(x: u64) -> [u8; 2]
    requires { x < 65536 }
    ensures { result ≡ x / 256 ∷ x % 256 ∷ [] }
{
    (x as u16).to_be_bytes()
}
