// Salvaging a damaged unit.
ghost use Rattle.av1ts.specs.Units.{Salvages};

use answers::SalvageAnswer;

#[unsafe(no_mangle)]
pub extern "C" fn av1ts_salvage(unit: &[u8], out: &mut [u8], marks: &mut [u8]) -> SalvageAnswer
    ensures { Salvages unit.now out.old marks.old result
        out.new marks.new }
{
    salvage::salvage(unit, out, marks).into()
}
