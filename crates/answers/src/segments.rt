// Checking a segment and extracting its access units.
ghost use Rattle.std.specs.Prelude.{◌≡◌};
ghost use Rattle.refusal.specs.Number.{says};
ghost use Rattle.segment.specs.Answer.{answered};
ghost use Rattle.answers.specs.Answers.{comparison_answer, accepted_answer, segment_answer};

use comparison::Disagreement;
use refusal::Refused;
use segment::{Compared, Summary};

// number 0: the segment is accepted. compared 1: a sequence header disagrees with the video descriptor or is cut short.
#[repr(C)]
#[derive(Default, Drop)]
pub struct SegmentAnswer {
    pub number: u64,
    pub place: u64,
    pub program: u64,
    pub pid: u64,
    pub units: u64,
    pub null_packets: u64,
    pub section: u64,
    pub av1: u64,
    pub other_listed: u64,
    pub unlisted: u64,
    pub compared: u64,
    pub unit: u64,
    pub field: u64,
}

// The last three fields of the answer.
#[derive(Default, Drop)]
struct Comparison {
    compared: u64,
    unit: u64,
    field: u64,
}

impl From<Option<Disagreement>> for Comparison {
    ghost from_gives = { λ disagreement last. last ≡ comparison_answer disagreement };

    fn from(disagreement: Option<Disagreement>) -> Comparison {
        match disagreement {
            None => Comparison::default(),
            Some(first) => Comparison {
                compared: 1,
                unit: first.unit as u64,
                field: first.field as u64,
            },
        }
    }
}

fn accepted(summary: Summary, disagreement: Option<Disagreement>) -> SegmentAnswer
    ensures { result ≡ accepted_answer summary disagreement }
{
    let totals = summary.totals;
    let last = Comparison::from(disagreement);
    SegmentAnswer {
        number: 0,
        place: 0,
        program: summary.program as u64,
        pid: summary.pid as u64,
        units: summary.units as u64,
        null_packets: totals.null as u64,
        section: totals.section as u64,
        av1: totals.av1 as u64,
        other_listed: totals.other_listed as u64,
        unlisted: totals.unlisted as u64,
        compared: last.compared,
        unit: last.unit,
        field: last.field,
    }
}

// The summary of an accepted segment with its disagreement, or the refusal.
impl From<Result<Compared, Refused>> for SegmentAnswer {
    ghost from_gives = { λ checked answer. answer
        ≡ segment_answer (says (answered checked).answer) (answered checked).disagreement };

    fn from(checked: Result<Compared, Refused>) -> SegmentAnswer {
        match checked {
            Ok(compared) => accepted(compared.summary, compared.disagreement),
            Err(refused) => SegmentAnswer {
                number: refused.why.number() as u64,
                place: refused.place as u64,
                ..SegmentAnswer::default()
            },
        }
    }
}
