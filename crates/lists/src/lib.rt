// Bytes and parts of a string, and the definitions and laws on lists of bytes that the other crates cite.
#![tactic(auto)]

ghost use Rattle.std.specs.Prelude.{◌≡◌, take, drop};
ghost use Rattle.lists.specs.Lists.{same};
ghost use Rattle.lists.specs.Bytes.{byte};

mod outputs;

pub use outputs::{copy, copy_rest, put};

// Returns the byte at `i`, or 0 if `s` ends before it.
pub fn byte_at(s: &[u8], i: usize) -> u8
    ensures { result ≡ byte s.now i }
{
    s.get(i).copied().unwrap_or(0)
}

// Returns what stands from `at` on, which is nothing if `s` ends before it.
pub fn rest(s: &[u8], at: usize) -> &[u8]
    ensures { result.now ≡ drop at s.now }
{
    &s[at.min(s.len())..]
}

// Returns `count` bytes from `at` on, or as many as there are.
pub fn part(s: &[u8], at: usize, count: usize) -> &[u8]
    ensures { result.now ≡ take count (drop at s.now) }
{
    let behind = rest(s, at);
    &behind[..count.min(behind.len())]
}

// Returns true if two strings are equal.
pub fn same(s: &[u8], t: &[u8]) -> bool
    ensures { result ≡ same s.now t.now }
{
    s == t
}
