// Numbers put into a sheet, 8 bytes big-endian.
ghost use Rattle.std.specs.Prelude.{◌≡◌, [], ◌∷◌, ◌+◌, ◌≤◌, length};
ghost use Rattle.lists.specs.Lists.{placed};
ghost use Rattle.sheet.specs.Sheet.{big_endian, in_bytes};

use lists::copy;

// Writes a number into `sheet` from `at` on.
pub(crate) fn put_number(n: u64, sheet: &mut [u8], at: usize)
    requires { at + 8 ≤ length sheet.old }
    ensures { sheet.new ≡ placed sheet.old at (big_endian 8 n) }
{
    copy(&n.to_be_bytes(), &mut sheet[at..]);
}

// Writes two numbers into `sheet` from `at` on.
pub(crate) fn put_two(a: u64, b: u64, sheet: &mut [u8], at: usize)
    requires { at + 16 ≤ length sheet.old }
    ensures { sheet.new ≡ placed sheet.old at (in_bytes (a ∷ b ∷ [])) }
{
    put_number(a, sheet, at);
    put_number(b, sheet, at + 8);
}

// Writes four numbers into `sheet` from `at` on.
pub(crate) fn put_four(a: u64, b: u64, c: u64, d: u64, sheet: &mut [u8], at: usize)
    requires { at + 32 ≤ length sheet.old }
    ensures { sheet.new ≡ placed sheet.old at (in_bytes (a ∷ b ∷ c ∷ d ∷ [])) }
{
    put_two(a, b, sheet, at);
    put_two(c, d, sheet, at + 16);
}
