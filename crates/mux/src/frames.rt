// Where a unit's frame begins.
ghost use Rattle.std.specs.Prelude.{◌≡◌, ◌≤◌, ◌<◌, length};
ghost use Rattle.mux_rules.specs.Packets.{frame_place, within};
ghost use Rattle.mux.specs.Parts.{frame_at};

use comparison::is_frame;
use lists::byte_at;
use tsobu::at_start_code;

// Returns true if a start code that begins an OBU of type 3 or 6 stands at `i`.
fn frame_at(unit: &[u8], i: usize) -> bool
    requires { i < length unit.now }
    ensures { result ≡ frame_at unit.now i }
{
    at_start_code(&unit[i..]) && is_frame(byte_at(unit, i + 3))
}

// Returns true if the first such start code is one of the first `n` bytes.
pub(crate) fn frame_begins(unit: &[u8], n: usize) -> bool
    requires { n ≤ length unit.now }
    ensures { result ≡ within n (frame_place unit.now) }
{
    for i in 0..n {
        if frame_at(unit, i) {
            return true;
        }
    }
    false
}
