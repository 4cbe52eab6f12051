// The leb128 that tells an OBU's size.
ghost use Rattle.std.specs.Prelude.{◌≡◌, Some};
ghost use Rattle.obu.specs.Leb128.{in_range, leb128};

// The most bytes that a leb128 takes.
const MOST_BYTES: usize = 8;

// The greatest value that a leb128 has.
const MOST_VALUE: u64 = 4294967295;

// A number, and how many bytes it takes as a leb128.
#[derive(Clone, Copy)]
pub struct Leb128 {
    pub value: u64,
    pub width: usize,
}

// Returns the number, or `None` if it is too large for a leb128.
fn in_range(leb: Leb128) -> Option<Leb128>
    ensures { result ≡ in_range (Some leb) }
{
    if MOST_VALUE < leb.value {
        return None;
    }
    Some(leb)
}

// Returns the leb128 that `s` begins with, or `None` if there is none. `value` is what the bytes read so far say,
// `scale` what the lowest of the next seven bits counts for.
pub fn read_leb128(s: &[u8]) -> Option<Leb128>
    ensures { result ≡ leb128 s.now }
{
    let mut value: u64 = 0;
    let mut scale: u64 = 1;
    for i in 0..MOST_BYTES {
        let b = *s.get(i)?;
        value += scale * (b % 128) as u64;
        if b < 128 {
            return in_range(Leb128 {
                value,
                width: i + 1,
            });
        }
        scale *= 128;
    }
    None
}
