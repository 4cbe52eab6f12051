// Writing into a lent output.
ghost use Rattle.std.specs.Prelude.{◌≡◌, [], ◌∷◌, length, take, drop};
ghost use Rattle.lists.specs.Lists.{over, Fitted};

use crate::rest;

// Writes the bytes of `s` over the front of `out`, or as many of them as `out` has room for.
// Stays: `copy_from_slice` calls memmove, and the library asks for memcpy and memset alone (packaging/README.txt).
pub fn copy(s: &[u8], out: &mut [u8])
    ensures { out.new ≡ over (take (length out.old) s.now) out.old }
{
    for i in 0..s.len().min(out.len()) {
        out[i] = s[i];
    }
}

// Writes `b` at `n` if `out` has room there. Returns the place behind what was written.
pub fn put(out: &mut [u8], n: usize, b: u8) -> usize
    ensures { Fitted out.old n (b ∷ []) result out.new }
{
    if out.len() <= n {
        return n;
    }
    out[n] = b;
    n + 1
}

// Writes the bytes of `s` from `i` on into `out` from `n` on, as far as there is room. Returns the place behind what
// was written.
pub fn copy_rest(s: &[u8], i: usize, out: &mut [u8], n: usize) -> usize
    ensures { Fitted out.old n (drop i s.now) result out.new }
{
    if out.len() <= n {
        return n;
    }
    let bytes = rest(s, i);
    copy(bytes, &mut out[n..]);
    n + bytes.len().min(out.len() - n)
}
