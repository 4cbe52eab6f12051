// Blocks of bytes. Where no 00 00 03 stands in one, unescaping drops nothing; without 00 00 no forbidden sequence
// begins. The loops that count places of a block have a fixed count and one way out, so that they are compiled to look
// at many bytes at a time.
ghost use Rattle.std.specs.Prelude.{◌≡◌, ℕ, Bool, ◌&&◌, ◌||◌, ◌+◌, ◌-◌, ◌≤◌, ◌<◌, eqb, leb, ltb, length, drop};
ghost use Rattle.lists.specs.Lists.{Bytes};
ghost use Rattle.emulation.specs.Payload.{forbidden};
ghost use Rattle.emulation.specs.Blocks.{block, hits, counted, free_of, paired, zeros_then3, zeros_then};
ghost use Rattle.emulation.specs.Parts.{Decides, Fresh, marked};

// The bytes of a block.
pub const BLOCK: usize = 64;

// The place that a pass has come to, and its count: of the bytes put, dropped or written.
#[derive(Drop)]
pub struct Reached {
    pub place: usize,
    pub count: usize,
}

// Returns a count of places as a number of bytes.
pub fn wide(count: u8) -> usize
    ensures { result ≡ count }
{
    count as usize
}

// Returns true if the two bytes are 00 00.
fn pair(a: u8, b: u8) -> bool
    ensures { result ≡ eqb a 0 && eqb b 0 }
{
    a == 0 && b == 0
}

// Returns true if the three bytes are 00 00 and a byte of LEAST to MOST.
pub fn zeros_then<const LEAST: u8, const MOST: u8>(a: u8, b: u8, c: u8) -> bool
    ensures { result ≡ zeros_then3 LEAST MOST a b c }
{
    a == 0 && b == 0 && (LEAST <= c && c <= MOST)
}

// Returns true if the four bytes begin with a forbidden sequence. No test waits for another: with `&&` the loop over a
// block looks at one byte at a time.
fn forbidden(a: u8, b: u8, c: u8, d: u8) -> bool
    ensures { result ≡ eqb a 0 && eqb b 0 && (leb c 2 || (eqb c 3 && ltb 3 d)) }
{
    (a == 0) & (b == 0) & ((c <= 2) | ((c == 3) & (3 < d)))
}

// Returns true if 00 00 stands at i.
pub(crate) fn pair_at(s: &[u8], i: usize) -> bool
    requires { i + 1 < length s.now }
    ensures { result ≡ paired (drop i s.now) }
{
    pair(s[i], s[i + 1])
}

// Returns true if 00 00 and a byte of LEAST to MOST stand at i.
pub(crate) fn zeros_then_at<const LEAST: u8, const MOST: u8>(s: &[u8], i: usize) -> bool
    requires { i + 2 < length s.now }
    ensures { result ≡ zeros_then LEAST MOST (drop i s.now) }
{
    zeros_then::<LEAST, MOST>(s[i], s[i + 1], s[i + 2])
}

// Returns true if a forbidden sequence begins at i; three bytes come after i.
pub(crate) fn forbidden_at(s: &[u8], i: usize) -> bool
    requires { i + 3 < length s.now }
    ensures { result ≡ forbidden (drop i s.now) }
{
    forbidden(s[i], s[i + 1], s[i + 2], s[i + 3])
}

// Returns at how many places of the block at i `test` holds.
// Stays: each contract says that the block is there; a window of 64 bytes is not what the definitions speak of.
pub(crate) fn count_places<F: Fn(&[u8], usize) -> bool>(s: &[u8], i: usize, test: F) -> u8
    requires within { i + block ≤ length s.now }
    requires callable { (j : ℕ) → j < block → F.pre test s (i + j) }
    ensures { (what : Bytes → Bool) → Decides (F.post test) what s.now i → result ≡ hits what block (drop i s.now) }
{
    let mut count: u8 = 0;
    for j in 0..BLOCK {
        count += test(s, i + j) as u8;
    }
    count
}

// Returns true if two bytes come after the block at i of s.
fn is_followed(s: &[u8], i: usize) -> bool
    ensures { result ≡ leb (block + 2) (length s.now - i) }
{
    i <= s.len() && BLOCK + 2 <= s.len() - i
}

// Returns at how many places of the block at i of s 00 00 and a byte of LEAST to MOST stand, or `None` if two bytes do
// not come after the block.
pub fn count_of<const LEAST: u8, const MOST: u8>(s: &[u8], i: usize) -> Option<u8>
    ensures { result ≡ counted (zeros_then LEAST MOST) (drop i s.now) }
{
    if !is_followed(s, i) {
        return None;
    }
    Some(count_places(s, i, zeros_then_at::<LEAST, MOST>))
}

// Returns true if two bytes come after the block at i of s, and 00 00 and a byte of LEAST to MOST stand at no place of
// the block.
pub fn free_of<const LEAST: u8, const MOST: u8>(s: &[u8], i: usize) -> bool
    ensures { result ≡ free_of (zeros_then LEAST MOST) (drop i s.now) }
{
    is_followed(s, i) && count_places(s, i, zeros_then_at::<LEAST, MOST>) == 0
}

// Returns true if two bytes come after the block at i of s, and 00 00 stands at no place of the block.
pub fn unpaired(s: &[u8], i: usize) -> bool
    ensures { result ≡ free_of paired (drop i s.now) }
{
    is_followed(s, i) && count_places(s, i, pair_at) == 0
}

// Returns true if two bytes come after the block at i of s, and 00 00 03 stands at no place of the block. Most blocks
// have no 00 00 at all.
pub(crate) fn unmarked(s: &[u8], i: usize) -> bool
    ensures { result ≡ free_of marked (drop i s.now) }
{
    unpaired(s, i) || free_of::<3, 3>(s, i)
}

// Returns how many places of s have two bytes after them: at these alone three bytes can be looked at.
pub fn places(s: &[u8]) -> usize
    ensures { result ≡ length s.now - 2 }
{
    s.len().saturating_sub(2)
}

// Returns the end of the block at i, or `last`, the end of the places, if that comes first.
pub fn block_end(i: usize, last: usize) -> usize
    ensures { result ≡ last - (last - (i + block)) }
{
    i.saturating_add(BLOCK).min(last)
}

// Returns the end of a run that begins at i: the first place from a block further on that comes after a byte that is
// not 00, or the length of s.
pub(crate) fn run_end(s: &[u8], i: usize) -> usize
    requires { i < length s.now }
    ensures { (i < result) × (result ≤ length s.now) × Fresh s.now result }
{
    if s.len() - i <= BLOCK {
        return s.len();
    }
    for end in i + BLOCK..s.len() {
        if s[end - 1] != 0 {
            return end;
        }
    }
    s.len()
}
