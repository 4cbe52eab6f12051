// 45.
ghost use Rattle.std.specs.Prelude.{◌≡◌};
ghost use Rattle.sheet.specs.Passing.{checking};

use crate::obus::obus_wrong;
use crate::sections::{Sections, measure};
use crate::units::{streams_wrong, units_wrong};

// The sections of a sheet that 45 does not refuse.
pub(crate) fn check(sheet: &[u8]) -> Option<Sections>
    ensures { result ≡ checking sheet.now }
{
    let sections = measure(sheet)?;
    if streams_wrong(sheet, sections.streams) {
        return None;
    }
    if units_wrong(sheet, sections.unit_rows, sections.units) {
        return None;
    }
    if obus_wrong(sheet, sections) {
        return None;
    }
    Some(sections)
}
