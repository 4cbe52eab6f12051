// Where the rows of the sections stand.
ghost use Rattle.std.specs.Prelude.{◌≡◌};
ghost use Rattle.sheet.specs.Passing.{measuring};

use crate::numbers::number;

// The most streams, units and OBUs.
const MOST_STREAMS: u64 = 12;

const MOST_UNITS: u64 = 1024;

const MOST_OBUS: u64 = 65536;

// How many rows each section has, and the numbers at which those of the units and of the OBUs begin.
#[derive(Clone, Copy)]
pub(crate) struct Sections {
    pub streams: usize,
    pub units: usize,
    pub obus: usize,
    pub unit_rows: usize,
    pub obu_rows: usize,
}

// The sections of a sheet whose counts and length are right.
pub(crate) fn measure(sheet: &[u8]) -> Option<Sections>
    ensures { result ≡ measuring sheet.now }
{
    let bytes = sheet.len();
    if bytes < 8 {
        return None;
    }
    let streams = number(sheet, 0);
    if MOST_STREAMS < streams {
        return None;
    }
    let unit_section = 1 + 2 * streams as usize;
    if bytes < 8 * (unit_section + 1) {
        return None;
    }
    let units = number(sheet, unit_section);
    if MOST_UNITS < units {
        return None;
    }
    let obu_section = unit_section + 1 + 4 * units as usize;
    if bytes < 8 * (obu_section + 1) {
        return None;
    }
    let obus = number(sheet, obu_section);
    if MOST_OBUS < obus {
        return None;
    }
    if bytes != 8 * (obu_section + 1 + 4 * obus as usize) {
        return None;
    }
    Some(Sections {
        streams: streams as usize,
        units: units as usize,
        obus: obus as usize,
        unit_rows: unit_section + 1,
        obu_rows: obu_section + 1,
    })
}
