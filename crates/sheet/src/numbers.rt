// The numbers of a sheet, and its rows.
ghost use Rattle.std.specs.Prelude.{◌≡◌, ◌+◌, ◌*◌, ◌≤◌, length};
ghost use Rattle.lists.specs.Lists.{over};
ghost use Rattle.sheet.specs.Reading.{number as reading_number};
ghost use Rattle.sheet.specs.Reading.{stream_row, unit_row, obu_row};
ghost use Rattle.sheet.specs.Passing.{numbers_from};

use crate::rows::{ObuRow, StreamRow, UnitRow};

// Returns the number with this index.
pub(crate) fn number(sheet: &[u8], i: usize) -> u64
    requires { 8 * (i + 1) ≤ length sheet.now }
    ensures { result ≡ reading_number sheet.now i }
{
    let at = 8 * i;
    let mut bytes = [0u8; 8];
    bytes.copy_from_slice(&sheet[at..at + 8]);
    u64::from_be_bytes(bytes)
}

// Returns the stream that begins at number `i`.
pub(crate) fn stream_row(sheet: &[u8], i: usize) -> StreamRow
    requires { 8 * (i + 2) ≤ length sheet.now }
    ensures { result ≡ stream_row sheet.now i }
{
    StreamRow {
        pid: number(sheet, i),
        stream_type: number(sheet, i + 1),
    }
}

// Returns the unit that begins at number `i`.
pub(crate) fn unit_row(sheet: &[u8], i: usize) -> UnitRow
    requires { 8 * (i + 4) ≤ length sheet.now }
    ensures { result ≡ unit_row sheet.now i }
{
    UnitRow {
        first_packet: number(sheet, i),
        length: number(sheet, i + 1),
        pts: number(sheet, i + 2),
        dts: number(sheet, i + 3),
    }
}

// Returns the OBU that begins at number `i`.
pub(crate) fn obu_row(sheet: &[u8], i: usize) -> ObuRow
    requires { 8 * (i + 4) ≤ length sheet.now }
    ensures { result ≡ obu_row sheet.now i }
{
    ObuRow {
        unit: number(sheet, i),
        obu_type: number(sheet, i + 1),
        offset: number(sheet, i + 2),
        length: number(sheet, i + 3),
    }
}

// Writes `count` numbers from number `i` on, which have room, over the front of `out`.
pub(crate) fn copy_numbers(sheet: &[u8], i: usize, count: usize, out: &mut [u64])
    requires { (8 * (i + count) ≤ length sheet.now) × (count ≤ length out.old) }
    ensures { out.new ≡ over (numbers_from sheet.now count i) out.old }
{
    for k in 0..count {
        out[k] = number(sheet, i + k);
    }
}
