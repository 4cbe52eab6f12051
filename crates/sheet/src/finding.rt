// Finding a unit by its number.
ghost use Rattle.refusal.specs.Number.{says};
ghost use Rattle.std.specs.Prelude.{◌≡◌};
ghost use Rattle.sheet.specs.Reading.{finding as reading_finding};

use crate::checking::check;
use crate::numbers::unit_row;
use crate::rows::UnitRow;
use refusal::{Refusal, Refused};

// Returns the unit of this number, from 0, or `None` if there is none. Returns refusal 45 if the sheet is wrong.
pub fn find_unit(sheet: &[u8], unit: u64) -> Result<Option<UnitRow>, Refused>
    ensures { says result ≡ reading_finding sheet.now unit }
{
    let Some(sections) = check(sheet) else {
        return Err(Refusal::Sheet.at(0));
    };
    if sections.units as u64 <= unit {
        return Ok(None);
    }
    Ok(Some(unit_row(sheet, sections.unit_rows + 4 * unit as usize)))
}
