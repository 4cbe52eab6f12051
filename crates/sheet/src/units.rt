// The streams and the units in turn.
ghost use Rattle.std.specs.Prelude.{◌≡◌, ◌+◌, ◌*◌, ◌≤◌, length};
ghost use Rattle.lists.specs.Lists.{any};
ghost use Rattle.sheet.specs.Reading.{rows, stream_row, unit_row};
ghost use Rattle.sheet.specs.Passing.{stream_wrong, unit_wrong, units_wrong};

use crate::numbers::{stream_row, unit_row};
use crate::rows::{StreamRow, UnitRow};

// The highest PID and stream_type of a stream.
const MOST_PID: u64 = 0x1FFE;

const MOST_STREAM_TYPE: u64 = 255;

// The most packets of a segment: none has this index.
const MOST_PACKETS: u64 = 65535;

// The longest unit as carried.
const MOST_CARRIED: u64 = 1573056;

// The highest time: the one that a unit without times has.
const MOST_TIME: u64 = 8589934592;

// Returns true if a stream is past its bounds.
fn stream_wrong(row: StreamRow) -> bool
    ensures { result ≡ stream_wrong row }
{
    if MOST_PID < row.pid {
        return true;
    }
    MOST_STREAM_TYPE < row.stream_type
}

// Returns true if one of `count` streams is.
pub(crate) fn streams_wrong(sheet: &[u8], count: usize) -> bool
    requires { 8 * (1 + 2 * count) ≤ length sheet.now }
    ensures { result ≡ any stream_wrong (rows (stream_row sheet.now) 2 count 1) }
{
    for n in 0..count {
        if stream_wrong(stream_row(sheet, 1 + 2 * n)) {
            return true;
        }
    }
    false
}

// Returns true if a unit begins too early or is past its bounds.
fn unit_wrong(low: u64, row: UnitRow) -> bool
    ensures { result ≡ unit_wrong low row }
{
    if row.first_packet < low {
        return true;
    }
    if MOST_PACKETS <= row.first_packet {
        return true;
    }
    if MOST_CARRIED < row.length {
        return true;
    }
    if MOST_TIME < row.pts {
        return true;
    }
    MOST_TIME < row.dts
}

// Returns true if one of `count` units, which begin at number `at`, does.
pub(crate) fn units_wrong(sheet: &[u8], at: usize, count: usize) -> bool
    requires { 8 * (at + 4 * count) ≤ length sheet.now }
    ensures { result ≡ units_wrong 0 (rows (unit_row sheet.now) 4 count at) }
{
    let mut low: u64 = 0;
    for n in 0..count {
        let row = unit_row(sheet, at + 4 * n);
        if unit_wrong(low, row) {
            return true;
        }
        low = row.first_packet + 1;
    }
    false
}
