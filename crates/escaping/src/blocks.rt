// Blocks of bytes. In a clean block escaping puts nothing. The loops that count places of a block have a fixed count
// and one way out, so that they are compiled to look at many bytes at a time.
ghost use Rattle.std.specs.Prelude.{◌≡◌, true, false, ◌+◌, ◌≤◌, ◌<◌, length, drop};
ghost use Rattle.emulation.specs.Blocks.{block, hits};
ghost use Rattle.emulation.specs.Parts.{critical};
ghost use Rattle.escaping.specs.Parts.{clean, single, First, Flags};

use emulation::{BLOCK, count_of, free_of, unpaired, wide, zeros_then};

// The bytes of a block, as a count of places.
const PLACES: u8 = 64;

// The greatest byte before which escaping puts a 03.
const MOST: u8 = 3;

// Returns true if 00 00 and a byte of 0 to 3 stand at i.
pub(crate) fn critical_at(s: &[u8], i: usize) -> bool
    requires { i + 2 < length s.now }
    ensures { result ≡ critical (drop i s.now) }
{
    zeros_then::<0, MOST>(s[i], s[i + 1], s[i + 2])
}

// Returns at how many places of the block at i 00 00 and a byte of 0 to 3 stand.
// Stays: each contract says that two bytes come after the block; a window of 66 bytes is not what definitions speak of.
pub(crate) fn criticals(s: &[u8], i: usize) -> u8
    requires { i + block + 2 ≤ length s.now }
    ensures { result ≡ hits critical block (drop i s.now) }
{
    count_of::<0, MOST>(s, i).unwrap_or(0)
}

// Returns what `criticals` returns; most blocks have no 00 00 at all, and are not looked at again.
pub(crate) fn crowd(s: &[u8], i: usize) -> u8
    requires { i + block + 2 ≤ length s.now }
    ensures { result ≡ hits critical block (drop i s.now) }
{
    if unpaired(s, i) {
        return 0;
    }
    criticals(s, i)
}

// Returns 1 for each place of the block at i at which 00 00 and a byte of 0 to 3 stand, 0 for the others.
pub(crate) fn flags(s: &[u8], i: usize) -> [u8; BLOCK]
    requires { i + block + 2 ≤ length s.now }
    ensures { Flags critical s.now i block result }
{
    let mut flags = [0u8; BLOCK];
    for j in 0..BLOCK {
        flags[j] = critical_at(s, i + j) as u8;
    }
    flags
}

// Returns k if 00 00 and a byte of 0 to 3 stand at i, or else more than any place of a block.
fn found_at(s: &[u8], i: usize, k: u8) -> u8
    requires { i + 2 < length s.now }
    ensures value { critical (drop i s.now) ≡ true → result ≡ k }
    ensures value_2 { critical (drop i s.now) ≡ false → result ≡ block }
{
    if critical_at(s, i) { k } else { PLACES }
}

// Returns how many places of the block at i come before the first at which 00 00 and a byte of 0 to 3 stand; all of
// them if there is none.
pub(crate) fn before_critical(s: &[u8], i: usize) -> u8
    requires { i + block + 2 ≤ length s.now }
    ensures { First critical s.now i block result }
{
    let mut first = PLACES;
    for k in 0..PLACES {
        first = first.min(found_at(s, i + wide(k), k));
    }
    first
}

// Returns true if two bytes come after the block at i, and the block is clean.
pub(crate) fn clean(s: &[u8], i: usize) -> bool
    ensures { result ≡ clean (drop i s.now) }
{
    unpaired(s, i) || free_of::<0, MOST>(s, i)
}

// Returns true if two bytes come after the block at i, and 00 00 00 stands at no place of the block.
pub(crate) fn single(s: &[u8], i: usize) -> bool
    ensures { result ≡ single (drop i s.now) }
{
    free_of::<0, 0>(s, i)
}
