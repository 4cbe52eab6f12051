// Reading a sheet.
ghost use Rattle.refusal.specs.Number.{says};
ghost use Rattle.std.specs.Prelude.{◌≡◌, ◌≤◌};
ghost use Rattle.sheet.specs.Answer.{numbers_in, read_into, LeavesNumbers};
ghost use Rattle.sheet.specs.Passing.{rooms_short};

use crate::checking::check;
use crate::numbers::copy_numbers;
use crate::rows::Counts;
use crate::sections::Sections;
use refusal::{Refusal, Refused};

// Whether one of three outputs, with room for so many numbers each, is too short.
fn outputs_short(sections: Sections, streams: usize, units: usize, obus: usize) -> bool
    requires { (sections.streams ≤ 12) × (sections.units ≤ 1024) × (sections.obus ≤ 65536) }
    ensures { result ≡ rooms_short sections streams units obus }
{
    if streams < 2 * sections.streams {
        return true;
    }
    if units < 4 * sections.units {
        return true;
    }
    obus < 4 * sections.obus
}

// The numbers of the sheet's streams, units and OBUs over the fronts of the three outputs; 45, then 8.
pub fn read(
    sheet: &[u8],
    streams: &mut [u64],
    units: &mut [u64],
    obus: &mut [u64],
) -> Result<Counts, Refused>
    ensures result_value { says result ≡ read_into sheet.now
        (numbers_in streams.old units.old obus.old) }
    ensures leaves_numbers { LeavesNumbers (says result) sheet.now
        (numbers_in streams.old units.old obus.old)
        (numbers_in streams.new units.new obus.new) }
{
    let Some(sections) = check(sheet) else {
        return Err(Refusal::Sheet.at(0));
    };
    if outputs_short(sections, streams.len(), units.len(), obus.len()) {
        return Err(Refusal::NoRoom.at(0));
    }
    copy_numbers(sheet, 1, 2 * sections.streams, streams);
    copy_numbers(sheet, sections.unit_rows, 4 * sections.units, units);
    copy_numbers(sheet, sections.obu_rows, 4 * sections.obus, obus);
    Ok(Counts {
        streams: sections.streams as u64,
        units: sections.units as u64,
        obus: sections.obus as u64,
    })
}
