// The check of a whole segment.
ghost use Rattle.std.specs.Prelude.{◌≡◌};
ghost use Rattle.descriptor.specs.Naming.{edition_says, named_says};
ghost use Rattle.segment_rules.specs.Check.{outputs_of, segment_length_wrong};
ghost use Rattle.segment.specs.Answer.{checked, ChecksIn};
ghost use Rattle.segment.specs.Parts.{asked_in, AcceptRefines, EndRefines, EndChecks, ChecksInOrder};

use descriptor::Edition;
use packet::PACKET_LENGTH;
use pmt::{ProgramMap, read_pmt};
use refusal::{Refusal, Refused};
use segment_rules::Totals;
use segment_run::{RunResult, run};
use tables::{Tables, section_at};
use units::{clear, note_first};

// The most packets of a segment.
const MOST_PACKETS: usize = 65535;

// What an accepted segment has: its program, the PID of its AV1 stream, its units, its packets by class.
#[derive(Clone, Copy)]
pub struct Summary {
    pub program: u16,
    pub pid: u16,
    pub units: usize,
    pub totals: Totals,
}

// An accepted segment: its summary, and its map.
#[derive(Clone, Copy)]
pub struct Accepted {
    pub summary: Summary,
    pub map: ProgramMap,
}

// Returns whether a segment has no bytes, not a multiple of 188, or over 65,535 packets.
#[tactic(auto, unfolding(segment_rules::specs::Check::segment_length_wrong))]
fn length_wrong(segment: &[u8]) -> bool
    ensures { result ≡ segment_length_wrong segment.now }
{
    let length = segment.len();
    length == 0 || length % PACKET_LENGTH != 0 || MOST_PACKETS < length / PACKET_LENGTH
}

// Returns the edition of this number, for a segment of a right length. Returns refusal 44, then 20.
fn asked(edition: u64, segment: &[u8]) -> Result<Edition, Refused>
    ensures { named_says result ≡ asked_in edition segment.now }
{
    let known = Edition::try_from(edition)?;
    if length_wrong(segment) {
        return Err(Refusal::SegmentLength.at(0));
    }
    Ok(known)
}

// Accepts a segment whose packets have all passed, or returns refusal 33. The map is read again from the packet that
// brought the first PMT.
fn accept(segment: &[u8], tables: Tables, units: usize, totals: Totals) -> Result<Accepted, Refused>
    ensures { AcceptRefines segment.now tables units totals (checked result) }
{
    let none = Refusal::NoTables.at(segment.len() / PACKET_LENGTH);
    let Some(first) = tables.pat else {
        return Err(none);
    };
    let Some(found) = tables.pmt else {
        return Err(none);
    };
    let program = first.says;
    let section = section_at(segment, found.packet);
    let map = read_pmt(tables.edition, section, program.number, program.map_pid)?;
    let summary = Summary {
        program: program.number,
        pid: found.av1_pid,
        units,
        totals,
    };
    Ok(Accepted { summary, map })
}

// Closes the open PES after the last packet, and accepts the segment, or returns refusal 33.
fn finish(
    segment: &[u8],
    ran: RunResult,
    out: &[u8],
    lens: &mut [usize],
    times: &mut [u64],
    firsts: &mut [usize],
) -> Result<Accepted, Refused>
    ensures { EndRefines segment.now ran
        (outputs_of out.now lens.old times.old) firsts.old (checked result)
        (outputs_of out.now lens.new times.new) firsts.new }
{
    let last = ran.state.extraction;
    let mut extraction = last;
    extraction.close(out, lens, times)?;
    note_first(last, extraction, firsts);
    accept(segment, ran.state.tables, extraction.units, ran.totals)
}

// Does the same, and on a refusal writes zeros throughout the outputs.
fn conclude(
    segment: &[u8],
    ran: RunResult,
    out: &mut [u8],
    lens: &mut [usize],
    times: &mut [u64],
    firsts: &mut [usize],
) -> Result<Accepted, Refused>
    ensures { EndChecks segment.now ran
        (outputs_of out.old lens.old times.old) firsts.old (checked result)
        (outputs_of out.new lens.new times.new) firsts.new }
{
    match finish(segment, ran, out, lens, times, firsts) {
        Ok(accepted) => Ok(accepted),
        Err(refused) => {
            clear(out, lens, times, firsts);
            Err(refused)
        }
    }
}

// Takes the packets of a segment in order, and the end.
fn judge(
    edition: Edition,
    segment: &[u8],
    out: &mut [u8],
    lens: &mut [usize],
    times: &mut [u64],
    firsts: &mut [usize],
) -> Result<Accepted, Refused>
    ensures { ChecksInOrder (edition_says edition) segment.now
        (outputs_of out.old lens.old times.old) firsts.old (checked result)
        (outputs_of out.new lens.new times.new) firsts.new }
{
    let ran = run(edition, segment, out, lens, times, firsts);
    ran.outcome?;
    conclude(segment, ran, out, lens, times, firsts)
}

// Checks a segment in the edition of this number. Writes its units over the front of `out`, their lengths over the
// front of `lens`, their times in turn over the front of `times`, and the packets that began them over the front of
// `firsts`, as many as it has room for. On a refusal there are zeros throughout all four.
// Stays: `out`, `lens`, `times` are parameters, since `check` is promised of each (docs/PROMISES.md).
pub fn check(
    edition: u64,
    segment: &[u8],
    out: &mut [u8],
    lens: &mut [usize],
    times: &mut [u64],
    firsts: &mut [usize],
) -> Result<Accepted, Refused>
    ensures { ChecksIn edition segment.now
        (outputs_of out.old lens.old times.old) firsts.old (checked result)
        (outputs_of out.new lens.new times.new) firsts.new }
{
    match asked(edition, segment) {
        Ok(known) => judge(known, segment, out, lens, times, firsts),
        Err(refused) => {
            clear(out, lens, times, firsts);
            Err(refused)
        }
    }
}
