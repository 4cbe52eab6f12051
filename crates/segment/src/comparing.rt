// The check of a segment, and its video descriptor beside its sequence headers (document 02, request 2026-04).
ghost use Rattle.std.specs.Prelude.{◌≡◌, take};
ghost use Rattle.unit.specs.Unit.{obus_of};
ghost use Rattle.segment_rules.specs.Check.{outputs_of};
ghost use Rattle.segment.specs.Answer.{answered, ChecksCompared};
ghost use Rattle.segment.specs.Parts.{disagreeing};

use crate::checking::{Summary, check};
use comparison::{Disagreement, compare_units};
use descriptor::fields_of;
use refusal::Refused;

// An accepted segment: its summary, and the first disagreement of a sequence header with the video descriptor.
#[derive(Clone, Copy)]
pub struct Compared {
    pub summary: Summary,
    pub disagreement: Option<Disagreement>,
}

// Returns the first disagreement of so many units, which stand back to back and have these lengths, with a video
// descriptor, of which these are the bytes behind its tag and length.
#[tactic(auto, unfolding(crate::specs::Parts::disagreeing))]
fn compare(video: Option<[u8; 4]>, out: &[u8], lens: &[usize], units: usize) -> Option<Disagreement>
    ensures { result
        ≡ disagreeing video (obus_of (take units lens.now) out.now) }
{
    let [first, second, third, last] = video?;
    let descriptor = [0x80u8, 4, first, second, third, last];
    compare_units(out, lens, units, fields_of(&descriptor))
}

// Checks a segment as `check` does, and compares what it accepts.
pub fn check_compared(
    edition: u64,
    segment: &[u8],
    out: &mut [u8],
    lens: &mut [usize],
    times: &mut [u64],
) -> Result<Compared, Refused>
    ensures { ChecksCompared edition segment.now
        (outputs_of out.old lens.old times.old) (answered result)
        (outputs_of out.new lens.new times.new) }
{
    let accepted = check(edition, segment, out, lens, times, &mut [])?;
    let summary = accepted.summary;
    let disagreement = compare(accepted.map.video, out, lens, summary.units);
    Ok(Compared {
        summary,
        disagreement,
    })
}
