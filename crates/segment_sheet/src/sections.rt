// The rows of the streams and of the units.
ghost use Rattle.std.specs.Prelude.{◌≡◌, ◌+◌, ◌*◌, ◌≤◌, length};
ghost use Rattle.lists.specs.Lists.{placed};
ghost use Rattle.sheet.specs.Sheet.{numbers_of, stream_numbers, unit_numbers, in_bytes};
ghost use Rattle.sheet.specs.Reading.{rows};
ghost use Rattle.segment_sheet.specs.Parts.{stream_at, unit_at};

use crate::numbers::{put_four, put_two};
use pmt::ProgramMap;

// Writes the streams of the map into `sheet` from `at` on.
pub(crate) fn put_streams(map: ProgramMap, sheet: &mut [u8], at: usize)
    requires { (map.count ≤ 12) × (at + 16 * map.count ≤ length sheet.old) }
    ensures { sheet.new
        ≡ placed sheet.old at (in_bytes (numbers_of stream_numbers
        (rows (stream_at map.entries) 1 map.count 0))) }
{
    let mut to = at;
    for entry in &map.entries[..map.count] {
        put_two(entry.pid as u64, entry.stream_type as u64, sheet, to);
        to += 16;
    }
}

// Writes `count` units into `sheet` from `at` on.
pub(crate) fn put_units(
    firsts: &[usize],
    lens: &[usize],
    times: &[u64],
    count: usize,
    sheet: &mut [u8],
    at: usize,
)
    requires { (count ≤ length firsts.now) × (count ≤ length lens.now) × (2 * count ≤ length times.now)
        × (at + 32 * count ≤ length sheet.old) }
    ensures { sheet.new
        ≡ placed sheet.old at (in_bytes (numbers_of unit_numbers
        (rows (unit_at firsts.now lens.now times.now) 1 count 0))) }
{
    let mut to = at;
    for i in 0..count {
        put_four(
            firsts[i] as u64,
            lens[i] as u64,
            times[2 * i],
            times[2 * i + 1],
            sheet,
            to,
        );
        to += 32;
    }
}
