// Start codes, and the payloads behind them.
ghost use Rattle.std.specs.Prelude.{◌≡◌, ◌+◌, ◌≤◌, ◌<◌, true, length, take, drop};
ghost use Rattle.emulation.specs.Payload.{forbidden, first_forbidden, dropped};
ghost use Rattle.emulation.specs.Parts.{Lawful};
ghost use Rattle.tsobu.specs.StartCodes.{at_start_code, code_from};
ghost use Rattle.tsobu.specs.Parts.{ScannedAt};
ghost use Rattle.tsobu.specs.Parts.{coded as parts_coded};

use emulation::{BLOCK, Reached, first_forbidden, free_of, unpaired, zeros_then};

// A string of at most so many bytes is a small one.
const SMALL: usize = 512;

// So many bytes of a small string are looked at one by one, from a place on.
const NEAR: usize = 32;

// The payload from a place on: where it ends, whether it is legal, and how many bytes unescaping drops of a legal one.
#[derive(Drop)]
pub(crate) struct Scanned {
    pub(crate) end: usize,
    pub(crate) legal: bool,
    pub(crate) dropped: usize,
}

// Returns true if a start code stands at i.
pub(crate) fn code_at(s: &[u8], i: usize) -> bool
    requires { i ≤ length s.now }
    ensures { result ≡ at_start_code (drop i s.now) }
{
    3 <= s.len() - i && (s[i] == 0 && zeros_then::<1, 1>(s[i], s[i + 1], s[i + 2]))
}

// Returns true if a start code stands at a place of the block at i, or if two bytes do not come after it. Most blocks
// have no 00 00.
fn coded(s: &[u8], i: usize) -> bool
    ensures { result ≡ parts_coded (drop i s.now) }
{
    !unpaired(s, i) && !free_of::<1, 1>(s, i)
}

// Passes over the blocks from `from` on in which no start code stands, and returns the place behind them.
fn pass_blocks(s: &[u8], from: usize) -> usize
    requires { from ≤ length s.now }
    ensures { (result ≤ length s.now) × (code_from s.now result ≡ code_from s.now from) }
{
    let mut i = from;
    // Stays: a `for` over `(from..s.len()).step_by(BLOCK)` has to return behind the loop too, where no string comes to.
    while !coded(s, i) {
        i += BLOCK;
    }
    i
}

// Returns where the first start code from `from` on stands, or the length; behind the end, `from` itself.
pub fn find(s: &[u8], from: usize) -> usize
    ensures { result ≡ code_from s.now from }
{
    if s.len() <= from {
        return from;
    }
    for i in pass_blocks(s, from)..s.len() {
        if code_at(s, i) {
            return i;
        }
    }
    s.len()
}

// Returns up to which place, from a place on in a string of so many bytes, bytes are looked at one by one.
fn near_end(bytes: usize, start: usize) -> usize
    requires { start < bytes }
    ensures { result < bytes }
{
    start + NEAR.min(bytes - start - 1)
}

// Returns the first place from `start` on, of those nearby, at which 00 00 stands, or a place behind them. A byte that
// is not 00 rules out two places.
fn near_pair(s: &[u8], start: usize) -> usize
    requires { start < length s.now }
    ensures { Lawful s.now start result 0 }
{
    let last = near_end(s.len(), start);
    let mut place = start;
    // Stays: a turn goes on by one place or two, by the byte there; a `for` over all places looks at each byte.
    while place < last {
        if s[place + 1] != 0 {
            place += 2;
        } else if s[place] != 0 {
            place += 1;
        } else {
            return place;
        }
    }
    place
}

// Returns true if a place is within a string of so many bytes, and the string is a small one.
fn in_small(bytes: usize, place: usize) -> bool
    ensures { result ≡ true → place < bytes }
{
    bytes <= SMALL && place < bytes
}

// Returns true if 00 00 and a byte of 0 to 2, a forbidden sequence, stand at i.
fn forbidden_at(s: &[u8], i: usize) -> bool
    requires { i ≤ length s.now }
    ensures { result ≡ true → forbidden (drop i s.now) ≡ true }
{
    3 <= s.len() - i && zeros_then::<0, 2>(s[i], s[i + 1], s[i + 2])
}

// Returns the first place from `from` on at which a forbidden sequence begins, or the end, and how many bytes
// unescaping drops before it. In a small unit most payloads are short, with nothing to drop: the first 00 00 belongs to
// the next start code.
fn search(s: &[u8], from: usize) -> Reached
    ensures place_value { result.place ≡ from + first_forbidden (drop from s.now) }
    ensures count_value { result.count
        ≡ dropped (take (first_forbidden (drop from s.now)) (drop from s.now)) }
{
    if !in_small(s.len(), from) {
        return first_forbidden(s, from);
    }
    let near = near_pair(s, from);
    if forbidden_at(s, near) {
        return Reached {
            place: near,
            count: 0,
        };
    }
    first_forbidden(s, near)
}

// Returns the payload from a place on, in one pass: a start code is a forbidden sequence, too, and of zeros before one
// the last two belong to none in the payload.
pub(crate) fn scan(unit: &[u8], start: usize) -> Scanned
    ensures { ScannedAt unit.now start result }
{
    let reached = search(unit, start);
    let place = reached.place;
    let dropped = reached.count;
    if unit.len() <= place {
        return Scanned {
            end: place,
            legal: true,
            dropped,
        };
    }
    for end in place..place + 3 {
        if code_at(unit, end) {
            return Scanned {
                end,
                legal: true,
                dropped,
            };
        }
    }
    Scanned {
        end: find(unit, place),
        legal: false,
        dropped: 0,
    }
}

// Returns true if a start code stands at the head.
pub fn at_start_code(s: &[u8]) -> bool
    ensures { result ≡ at_start_code s.now }
{
    code_at(s, 0)
}
