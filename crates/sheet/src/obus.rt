// The OBUs in turn.
ghost use Rattle.std.specs.Prelude.{◌≡◌, false, ◌+◌, ◌*◌, ◌≤◌, ◌<◌, ltb, length};
ghost use Rattle.sheet.specs.Reading.{rows, unit_row, obu_row, end};
ghost use Rattle.sheet.specs.Passing.{at_first, row_wrong, placing, obus_wrong};

use crate::numbers::{number, obu_row};
use crate::rows::ObuRow;
use crate::sections::Sections;

// The highest type, and the most OBUs of a unit.
const MOST_TYPE: u64 = 15;

const MOST_IN_UNIT: u64 = 64;

// How far the OBUs have come: the units begun, the OBUs of the last of them, and where its last payload ends.
#[derive(Drop)]
struct Progress {
    begun: u64,
    count: u64,
    end: u64,
}

// Returns true if a payload passes the length of its unit.
fn passes(row: ObuRow, length: u64) -> bool
    ensures { result ≡ ltb length (end row) }
{
    if length < row.offset {
        return true;
    }
    length - row.offset < row.length
}

// Returns true if an OBU is wrong by itself, of `units` units, whose rows begin at number `unit_rows`.
fn row_wrong(sheet: &[u8], unit_rows: usize, units: usize, row: ObuRow) -> bool
    requires { (8 * (unit_rows + 4 * units) ≤ length sheet.now) × (units ≤ 1024) }
    ensures value { result ≡ row_wrong (rows (unit_row sheet.now) 4 units unit_rows) row }
    ensures unit_bound { result ≡ false → (row.unit < 1024) × (end row < 18446744073709551616) }
{
    if units as u64 <= row.unit {
        return true;
    }
    if MOST_TYPE < row.obu_type {
        return true;
    }
    if row.length == 0 {
        return true;
    }
    let unit = row.unit as usize;
    let length = number(sheet, unit_rows + 4 * unit + 1);
    passes(row, length)
}

// The progress behind an OBU.
fn place(progress: Progress, row: ObuRow) -> Option<Progress>
    requires { (row.unit < 1024) × (end row < 18446744073709551616) }
    ensures { result ≡ placing progress row }
{
    let begun = row.unit + 1;
    let end = row.offset + row.length;
    if row.unit == progress.begun {
        return Some(Progress {
            begun,
            count: 1,
            end,
        });
    }
    if begun != progress.begun {
        return None;
    }
    if MOST_IN_UNIT <= progress.count {
        return None;
    }
    if row.offset < progress.end {
        return None;
    }
    Some(Progress {
        begun,
        count: progress.count + 1,
        end,
    })
}

// Returns true if one of the OBUs is wrong, or a unit has none.
pub(crate) fn obus_wrong(sheet: &[u8], sections: Sections) -> bool
    requires { (8 * (sections.unit_rows + 4 * sections.units) ≤ length sheet.now) × (sections.units ≤ 1024)
        × (8 * (sections.obu_rows + 4 * sections.obus) ≤ length sheet.now) }
    ensures { result
        ≡ obus_wrong (rows (unit_row sheet.now) 4 sections.units sections.unit_rows) at_first
        (rows (obu_row sheet.now) 4 sections.obus sections.obu_rows) }
{
    let mut progress = Progress {
        begun: 0,
        count: 0,
        end: 0,
    };
    for n in 0..sections.obus {
        let row = obu_row(sheet, sections.obu_rows + 4 * n);
        if row_wrong(sheet, sections.unit_rows, sections.units, row) {
            return true;
        }
        let step = place(progress, row);
        let Some(next) = step else {
            return true;
        };
        progress = next;
    }
    progress.begun != sections.units as u64
}
