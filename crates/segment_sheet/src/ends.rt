// Where the payloads of a unit that reading accepts end.
ghost use Rattle.std.specs.Prelude.{◌≡◌, ◌≤◌, length, drop};
ghost use Rattle.refusal.specs.Verdict.{passed};
ghost use Rattle.tsobu.specs.StartCodes.{split, code_from};
ghost use Rattle.tsobu.specs.TsObu.{tsobu_refusal};

use obu::read_header;
use tsobu::find;

// Where the payload from a place on ends, one that reading accepts. Its OBU has as many bytes as its header says, and
// the payload no fewer, so no start code stands in these: they are passed over. Where the header says no size, all of
// the payload is searched.
pub(crate) fn end_of(unit: &[u8], start: usize) -> usize
    requires { (start ≤ length unit.now)
        × (tsobu_refusal (split (drop start unit.now)).before ≡ passed tt) }
    ensures { result ≡ code_from unit.now start }
{
    let Ok(header) = read_header(&unit[start..]) else {
        return find(unit, start);
    };
    match header.size {
        Some(leb) => find(unit, start + header.content + leb.value as usize),
        None => find(unit, start),
    }
}
