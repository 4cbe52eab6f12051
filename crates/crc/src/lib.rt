// The CRC of ISO/IEC 13818-1, Annex A, sixteen bytes at a time, by a table of what each byte leaves.
#![tactic(auto)]

ghost use Rattle.std.specs.Prelude.{◌≡◌, ◌+◌, ◌≤◌};
ghost use Rattle.crc.specs.Crc.{byte_step, crc_from, crc};
ghost use Rattle.crc.specs.Parts.{zeros_step, word_at};

mod table;

use crate::table::left;

// Returns the register after one byte.
fn step(register: u32, byte: u8) -> u32
    ensures { result ≡ byte_step register byte }
{
    let top = (register / 16777216) as u8 ^ byte;
    register % 16777216 * 256 ^ left(0, top)
}

// Returns what the four bytes of `word` leave after themselves and k zero bytes.
fn left_by_four(k: usize, word: u32) -> u32
    requires { k + 4 ≤ 16 }
    ensures { result ≡ zeros_step (k + 4) word }
{
    let [a, b, c, d] = word.to_be_bytes();
    left(k + 3, a) ^ left(k + 2, b) ^ (left(k + 1, c) ^ left(k, d))
}

// Returns the register after four bytes.
// Stays: the number of the bytes is their type, so that no `requires` states it; `as_chunks` gives them so.
fn four(register: u32, bytes: [u8; 4]) -> u32
    ensures { result ≡ crc_from register bytes }
{
    left_by_four(0, register ^ u32::from_be_bytes(bytes))
}

// Returns the four bytes of `bytes` from i on as one number, the first of them the highest.
// Stays: the number of the bytes is their type, as at `sixteen`, its only caller.
fn word_at(bytes: &[u8; 16], i: usize) -> u32
    requires { i + 4 ≤ 16 }
    ensures { result ≡ word_at bytes.now i }
{
    u32::from_be_bytes([bytes[i], bytes[i + 1], bytes[i + 2], bytes[i + 3]])
}

// Returns the register after sixteen bytes.
// Stays: the number of the bytes is their type, so that no `requires` states it; `as_chunks` gives them so.
fn sixteen(register: u32, bytes: &[u8; 16]) -> u32
    ensures { result ≡ crc_from register bytes.now }
{
    let fourth = left_by_four(0, word_at(bytes, 12));
    let third = left_by_four(4, word_at(bytes, 8));
    let second = left_by_four(8, word_at(bytes, 4));
    let first = left_by_four(12, register ^ word_at(bytes, 0));
    fourth ^ third ^ second ^ first
}

// Returns the CRC of these bytes.
pub fn crc32(bytes: &[u8]) -> u32
    ensures { result ≡ crc bytes.now }
{
    let (sixteens, rest) = bytes.as_chunks::<16>();
    let (fours, last) = rest.as_chunks::<4>();
    let register = sixteens.iter().fold(0xFFFF_FFFF, |r, s| sixteen(r, s));
    let register = fours.iter().fold(register, |r, f| four(r, *f));
    last.iter().fold(register, |r, byte| step(r, *byte))
}
