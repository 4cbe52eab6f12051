// Writing the sheet.
ghost use Rattle.refusal.specs.Number.{says};
ghost use Rattle.segment_rules.specs.Check.{outputs_of};
ghost use Rattle.segment_sheet.specs.Answer.{Writes};
ghost use Rattle.segment_sheet.specs.Parts.{HandedOut, content_in, Puts};

use crate::numbers::put_number;
use crate::obus::{put_obus, short_of};
use crate::sections::{put_streams, put_units};
use pmt::ProgramMap;
use refusal::{Refusal, Refused};
use segment::check;

// The most units of a segment.
const MOST_UNITS: usize = 1024;

// Writes the sheet of what the check handed out over the front of `sheet`, and returns its length. Returns refusal 8 if
// `sheet` is too short; `sheet` is left unchanged.
fn put_sheet(
    map: ProgramMap,
    count: usize,
    firsts: &[usize],
    lens: &[usize],
    times: &[u64],
    bytes: &[u8],
    sheet: &mut [u8],
) -> Result<usize, Refused>
    requires { HandedOut map count firsts.now lens.now times.now bytes.now }
    ensures { Puts (content_in map count firsts.now lens.now times.now
        bytes.now) sheet.old (says result) sheet.new }
{
    let streams = map.count;
    let units_at = 8 + 16 * streams;
    let obus_at = units_at + 8 + 32 * count;
    if short_of(bytes, lens, count, obus_at + 8, sheet.len()) {
        return Err(Refusal::NoRoom.at(0));
    }
    put_number(streams as u64, sheet, 0);
    put_streams(map, sheet, 8);
    put_number(count as u64, sheet, units_at);
    put_units(firsts, lens, times, count, sheet, units_at + 8);
    let end = put_obus(bytes, lens, count, sheet, obus_at + 8);
    let obus = (end - obus_at - 8) / 32;
    put_number(obus as u64, sheet, obus_at);
    Ok(end)
}

// Checks a segment in the edition of this number, as `check` does. Writes the sheet of an accepted segment over the
// front of `sheet`, and returns its length. Returns refusal 8 if `sheet` is too short; the outputs of the check are
// then left as it wrote them.
pub fn write(
    edition: u64,
    segment: &[u8],
    out: &mut [u8],
    lens: &mut [usize],
    times: &mut [u64],
    sheet: &mut [u8],
) -> Result<usize, Refused>
    ensures { Writes edition segment.now
        (outputs_of out.old lens.old times.old) sheet.old (says result)
        (outputs_of out.new lens.new times.new) sheet.new }
{
    let mut firsts = [0usize; MOST_UNITS];
    let accepted = check(edition, segment, out, lens, times, &mut firsts)?;
    let units = accepted.summary.units;
    put_sheet(accepted.map, units, &firsts, lens, times, out, sheet)
}
