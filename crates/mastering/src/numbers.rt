// The ten whole numbers of the content.
ghost use Rattle.std.specs.Prelude.{◌≡◌, ◌≤◌};
ghost use Rattle.mastering.specs.Content.{bits16, bits32, numbers_of};

use lists::byte_at;

// In the content's order.
#[derive(Drop)]
pub(crate) struct Numbers {
    pub red_x: u16,
    pub red_y: u16,
    pub green_x: u16,
    pub green_y: u16,
    pub blue_x: u16,
    pub blue_y: u16,
    pub white_x: u16,
    pub white_y: u16,
    pub luminance_max: u32,
    pub luminance_min: u32,
}

// Returns the number of 16 bits at offset i.
fn bits16_at(s: &[u8], i: usize) -> u16
    requires { i ≤ 24 }
    ensures { result ≡ bits16 s.now i }
{
    u16::from_be_bytes([byte_at(s, i), byte_at(s, i + 1)])
}

// Returns the number of 32 bits at offset i.
fn bits32_at(s: &[u8], i: usize) -> u32
    requires { i ≤ 20 }
    ensures { result ≡ bits32 s.now i }
{
    u32::from_be_bytes([
        byte_at(s, i),
        byte_at(s, i + 1),
        byte_at(s, i + 2),
        byte_at(s, i + 3),
    ])
}

// Returns the numbers that stand behind the type.
pub(crate) fn numbers_of(s: &[u8]) -> Numbers
    ensures { result ≡ numbers_of s.now }
{
    Numbers {
        red_x: bits16_at(s, 0),
        red_y: bits16_at(s, 2),
        green_x: bits16_at(s, 4),
        green_y: bits16_at(s, 6),
        blue_x: bits16_at(s, 8),
        blue_y: bits16_at(s, 10),
        white_x: bits16_at(s, 12),
        white_y: bits16_at(s, 14),
        luminance_max: bits32_at(s, 16),
        luminance_min: bits32_at(s, 20),
    }
}
