// The OBUs of units that stand back to back.
ghost use Rattle.std.specs.Prelude.{◌≡◌, ℕ, ◌+◌, ◌*◌, ◌≤◌, ltb, length, take};
ghost use Rattle.lists.specs.Lists.{placed};
ghost use Rattle.obu.specs.Header.{type_bits};
ghost use Rattle.segment_sheet.specs.Parts.{Readable, CutsRight, obus_in, obus_of, obus_end, obu_bytes};

use crate::ends::end_of;
use crate::numbers::put_four;
use lists::{byte_at, part};

// Stays: `bytes`, `lens` and `count` are what the check handed out, which `content_in` (specs/Parts.antt) names apart.

// The bytes of the rows of the most OBUs that a unit has.
const MOST_ROWS: usize = 64 * 32;

// Returns the type in the first byte of an OBU.
fn type_of(first: u8) -> u64
    ensures { result ≡ type_bits first }
{
    (first / 8 % 16) as u64
}

// Returns how many OBUs a unit has.
fn obus_of(unit: &[u8]) -> usize
    requires { Readable unit.now }
    ensures { ((index : ℕ) → result ≡ length (obus_in index unit.now))
        × (result ≤ length unit.now) }
{
    let mut count: usize = 0;
    let mut code: usize = 0;
    // Stays: `end_of` goes by the size that the OBU says; `tsobu::Payloads` would search each payload for its end.
    while code < unit.len() {
        count += 1;
        code = end_of(unit, code + 3);
    }
    count
}

// Returns how many OBUs `count` units of these lengths have.
fn count_obus(bytes: &[u8], lens: &[usize], count: usize) -> usize
    requires { (count ≤ length lens.now) × CutsRight (take count lens.now) bytes.now }
    ensures { result ≡ length (obus_of count lens.now bytes.now) }
{
    let mut total: usize = 0;
    let mut at: usize = 0;
    for len in &lens[..count] {
        let unit = part(bytes, at, *len);
        total += obus_of(unit);
        at += *len;
    }
    total
}

// Returns true if the OBUs of `count` units of these lengths do not fit into `room` bytes from `at` on. They are
// counted only if there is no room for the most.
pub(crate) fn short_of(bytes: &[u8], lens: &[usize], count: usize, at: usize, room: usize) -> bool
    requires { (count ≤ length lens.now) × CutsRight (take count lens.now) bytes.now
        × (length (obus_of count lens.now bytes.now) ≤ 64 * count) × (count ≤ 1024) × (at ≤ 65536) }
    ensures { result ≡ ltb room (obus_end at count lens.now bytes.now) }
{
    if at + MOST_ROWS * count <= room {
        return false;
    }
    room < at + 32 * count_obus(bytes, lens, count)
}

// Writes the OBUs of the unit with this index into `sheet` from `at` on. Returns the place behind them.
fn put_obus_of(index: u64, unit: &[u8], sheet: &mut [u8], at: usize) -> usize
    requires { Readable unit.now
        × (at + 32 * length (obus_in index unit.now) ≤ length sheet.old) }
    ensures value { result ≡ at + 32 * length (obus_in index unit.now) }
    ensures sheet_after { sheet.new
        ≡ placed sheet.old at (obu_bytes (obus_in index unit.now)) }
{
    let mut to = at;
    let mut code: usize = 0;
    // Stays: as in `obus_of`; here each row has the place of its payload, too.
    while code < unit.len() {
        let start = code + 3;
        let end = end_of(unit, start);
        let payload = part(unit, start, end - start);
        let obu_type = type_of(byte_at(payload, 0));
        put_four(
            index,
            obu_type,
            start as u64,
            payload.len() as u64,
            sheet,
            to,
        );
        to += 32;
        code = end;
    }
    to
}

// Writes the OBUs of `count` units of these lengths into `sheet` from `at` on. Returns the place behind them.
pub(crate) fn put_obus(
    bytes: &[u8],
    lens: &[usize],
    count: usize,
    sheet: &mut [u8],
    at: usize,
) -> usize
    requires { (count ≤ length lens.now) × CutsRight (take count lens.now) bytes.now
        × (obus_end at count lens.now bytes.now ≤ length sheet.old) }
    ensures value { result ≡ obus_end at count lens.now bytes.now }
    ensures sheet_after { sheet.new
        ≡ placed sheet.old at (obu_bytes (obus_of count lens.now bytes.now)) }
{
    let mut to = at;
    let mut from: usize = 0;
    for (i, len) in lens[..count].iter().enumerate() {
        let unit = part(bytes, from, *len);
        to = put_obus_of(i as u64, unit, sheet, to);
        from += *len;
    }
    to
}
