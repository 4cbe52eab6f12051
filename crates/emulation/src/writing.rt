// Copying blocks.
ghost use Rattle.std.specs.Prelude.{◌≡◌, true, false, ◌+◌, ◌≤◌, leb, length, take, drop};
ghost use Rattle.std.proofs.Math.Seq.{paste};
ghost use Rattle.emulation.specs.Blocks.{block, block_copied};
ghost use Rattle.emulation.specs.Parts.{Copied};

use crate::blocks::{BLOCK, unmarked};

// Returns the bytes of the block at i.
fn load_block(s: &[u8], i: usize) -> [u8; BLOCK]
    requires { i + block ≤ length s.now }
    ensures { result ≡ take block (drop i s.now) }
{
    let mut bytes = [0u8; BLOCK];
    for j in 0..BLOCK {
        bytes[j] = s[i + j];
    }
    bytes
}

// Copies the block at i over out from n on, through an array: the two slices are never read and written in the same
// loop.
// Stays: with `copy_from_slice`, which is called for each block, escaping random bytes took 1.7 of the time.
fn write_block(s: &[u8], i: usize, out: &mut [u8], n: usize)
    requires { (i + block ≤ length s.now) × (n + block ≤ length out.old) }
    ensures { out.new ≡ paste out.old n (drop i s.now) block }
{
    let bytes = load_block(s, i);
    for j in 0..BLOCK {
        out[n + j] = bytes[j];
    }
}

// Copies the block at i into out from n on and returns true, if no 00 00 03 stands in the block and out has room. If
// not, returns false; out is then left unchanged.
pub(crate) fn copy_unmarked(s: &[u8], i: usize, out: &mut [u8], n: usize) -> bool
    requires { n ≤ length out.old }
    ensures copied { result ≡ true → Copied s.now i out.old n out.new }
    ensures out_unchanged { result ≡ false → out.new ≡ out.old }
{
    if out.len() - n < BLOCK {
        return false;
    }
    if unmarked(s, i) {
        write_block(s, i, out, n);
        return true;
    }
    false
}

// Returns true if a block is there from a place on, of so many bytes.
fn has_block(bytes: usize, at: usize) -> bool
    ensures { result ≡ leb (at + block) bytes }
{
    at <= bytes && BLOCK <= bytes - at
}

// Copies the block at i into out from n on if both have a whole block there; if not, out is left unchanged.
pub fn copy_block(s: &[u8], i: usize, out: &mut [u8], n: usize)
    ensures { out.new ≡ block_copied s.now i out.old n }
{
    if !has_block(s.len(), i) {
        return;
    }
    if !has_block(out.len(), n) {
        return;
    }
    write_block(s, i, out, n);
}
