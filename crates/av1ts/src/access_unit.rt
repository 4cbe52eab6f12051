// Reading, checking and writing an access unit.
ghost use Rattle.std.specs.Prelude.{◌≡◌, length};
ghost use Rattle.refusal.specs.Verdict.{leaves};
ghost use Rattle.unit.specs.Unit.{obus_of, carried, write_unit};
ghost use Rattle.unit.specs.Answer.{checking};
ghost use Rattle.answers.specs.Answers.{count_answer, unit_answer};
ghost use Rattle.av1ts.specs.Units.{ReadsUnit, ReadsWidths};

use answers::Answer;

#[unsafe(no_mangle)]
pub extern "C" fn av1ts_write_unit(obus: &[u8], lengths: &[usize], out: &mut [u8]) -> Answer
    ensures value { result
        ≡ count_answer (write_unit lengths.now obus.now (length out.old)) }
    ensures out_after { out.new
        ≡ leaves (write_unit lengths.now obus.now (length out.old))
        (carried (obus_of lengths.now obus.now)) out.old }
{
    unit::write(obus, lengths, out).into()
}

// Stays: the C interface has these parameters, here and of the other exported functions (include/av1ts.h).
#[unsafe(no_mangle)]
pub extern "C" fn av1ts_read_unit(unit: &[u8], out: &mut [u8], lengths: &mut [usize]) -> Answer
    ensures { ReadsUnit unit.now out.old lengths.old result
        out.new lengths.new }
{
    let mut widths = [0usize; 64]; // as many as an accepted unit has OBUs at most
    unit::read(unit, out, lengths, &mut widths).into()
}

#[unsafe(no_mangle)]
pub extern "C" fn av1ts_read_unit_widths(
    unit: &[u8],
    out: &mut [u8],
    lengths: &mut [usize],
    widths: &mut [usize],
) -> Answer
    ensures { ReadsWidths unit.now out.old lengths.old widths.old result
        out.new lengths.new widths.new }
{
    unit::read(unit, out, lengths, widths).into()
}

#[unsafe(no_mangle)]
pub extern "C" fn av1ts_check_unit(unit: &[u8]) -> Answer
    ensures { result ≡ unit_answer (checking unit.now) }
{
    unit::check(unit).into()
}
