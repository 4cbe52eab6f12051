// The sheet beside a segment: writing it, reading it, and finding a unit in it.
ghost use Rattle.std.specs.Prelude.{◌≡◌};
ghost use Rattle.sheet.specs.Reading.{finding};
ghost use Rattle.sheet.specs.Answer.{numbers_in};
ghost use Rattle.segment_rules.specs.Check.{outputs_of};
ghost use Rattle.answers.specs.Sheets.{found_answer};
ghost use Rattle.av1ts.specs.Sheets.{WritesSheet, ReadsSheet};

use answers::{SheetAnswer, SheetFound, SheetWritten};

// The check in the edition of this number, 0 current, 1 draft, and the sheet of an accepted segment.
#[unsafe(no_mangle)]
pub extern "C" fn av1ts_write_sheet(
    edition: u64,
    segment: &[u8],
    out: &mut [u8],
    lengths: &mut [usize],
    times: &mut [u64],
    sheet: &mut [u8],
) -> SheetWritten
    ensures { WritesSheet edition segment.now
        (outputs_of out.old lengths.old times.old) sheet.old result
        (outputs_of out.new lengths.new times.new) sheet.new }
{
    segment_sheet::write(edition, segment, out, lengths, times, sheet).into()
}

#[unsafe(no_mangle)]
pub extern "C" fn av1ts_read_sheet(
    sheet: &[u8],
    streams: &mut [u64],
    units: &mut [u64],
    obus: &mut [u64],
) -> SheetAnswer
    ensures { ReadsSheet sheet.now
        (numbers_in streams.old units.old obus.old) result
        (numbers_in streams.new units.new obus.new) }
{
    sheet::read(sheet, streams, units, obus).into()
}

#[unsafe(no_mangle)]
pub extern "C" fn av1ts_sheet_unit(sheet: &[u8], unit: u64) -> SheetFound
    ensures { result ≡ found_answer (finding sheet.now unit) }
{
    sheet::find_unit(sheet, unit).into()
}
