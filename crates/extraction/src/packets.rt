// One packet of the segment, by the table of document 01 in its sequence.
ghost use Rattle.std.specs.Prelude.{◌≡◌, ◌&&◌, not};
ghost use Rattle.refusal.specs.Number.{says};
ghost use Rattle.refusal.specs.Verdict.{at_place};
ghost use Rattle.packet.specs.Header.{packet_at, header_of};
ghost use Rattle.segment_rules.specs.Check.{outputs_of};
ghost use Rattle.extraction.specs.Packets.{fresh_state, stepped, Steps};
ghost use Rattle.extraction.specs.Parts.{TakesContent, StepsRead, StepsAt};

use descriptor::Edition;
use packet::{Header, PACKET_LENGTH, Streams, packet_at, payload};
use refusal::{Refusal, Refused};
use tables::{Kind, Packet, Tables, check_counter};
use units::{Arrival, Extraction};

// The tables and the units. The records of the counters are lent beside it.
#[derive(Clone, Copy)]
pub struct State {
    pub tables: Tables,
    pub extraction: Extraction,
}

// Returns what the header of the packet with this index says. Returns refusal 21, 22 or 23 at the index if it is wrong.
#[tactic(auto, unfolding(refusal::specs::Verdict::at_place))]
fn header_at(segment: &[u8], index: usize) -> Result<Header, Refused>
    ensures { says result ≡ at_place index (header_of (packet_at segment.now index)) }
{
    packet::read(packet_at(segment, index)).map_err(|refused| refused.why.at(index))
}

// Returns whether what a packet carries is taken: there is a payload, and the packet is no repeat.
fn is_taken(carries: bool, repeat: bool) -> bool
    ensures { result ≡ (carries && not repeat) }
{
    carries && !repeat
}

// Stays: `out`, `lens`, `times` are parameters, since `State::step` is promised of each (docs/PROMISES.md).
impl State {
    // Returns the state before the first packet.
    pub fn fresh(edition: Edition) -> State
        ensures { result ≡ fresh_state edition }
    {
        State {
            tables: Tables::fresh(edition),
            extraction: Extraction::fresh(),
        }
    }

    // Takes what a packet that passed 24 carries: a section, or the payload of a PES. Returns the refusal of the one or
    // the other; the outputs are then left unchanged.
    fn take_content(
        &mut self,
        segment: &[u8],
        packet: Packet,
        records: &mut Streams,
        out: &mut [u8],
        lens: &mut [usize],
        times: &mut [u64],
    ) -> Result<(), Refused>
        ensures { TakesContent segment.now packet self.old records.old
            (outputs_of out.old lens.old times.old) self.new result records.new
            (outputs_of out.new lens.new times.new) }
    {
        let index = packet.index;
        let start = packet.header.start;
        let payload = payload(packet_at(segment, index));
        if let Kind::Av1(_) = packet.kind {
            let arrival = Arrival {
                index,
                pcr_seen: self.tables.pcr.is_some(),
                edition: self.tables.edition,
            };
            return self
                .extraction
                .take_payload(arrival, start, payload, out, lens, times);
        }
        self.tables
            .read_section(segment, index, payload, start, packet.kind, records)
            .map_err(|refused| refused.why.at(index))
    }

    // Takes a packet that passed 21, 22 and 23: its PCR and its counter, then what it carries, unless it is a repeat.
    // Returns refusal 24, or that of what it carries; the outputs are then left unchanged.
    fn step_read(
        &mut self,
        segment: &[u8],
        packet: Packet,
        records: &mut Streams,
        out: &mut [u8],
        lens: &mut [usize],
        times: &mut [u64],
    ) -> Result<(), Refused>
        ensures { StepsRead segment.now packet self.old records.old
            (outputs_of out.old lens.old times.old) self.new result records.new
            (outputs_of out.new lens.new times.new) }
    {
        self.tables.pcr = self.tables.last_pcr(packet.header);
        let repeat = check_counter(segment, packet, records)?;
        if !is_taken(packet.header.payload.is_some(), repeat) {
            return Ok(());
        }
        self.take_content(segment, packet, records, out, lens, times)
    }

    // Takes the packet with this index as `step` does. On a refusal the outputs are left unchanged, and nothing is said
    // of the state and the records.
    fn step_at(
        &mut self,
        segment: &[u8],
        index: usize,
        records: &mut Streams,
        out: &mut [u8],
        lens: &mut [usize],
        times: &mut [u64],
    ) -> Result<Kind, Refused>
        ensures { StepsAt segment.now index self.old records.old
            (outputs_of out.old lens.old times.old) self.new result records.new
            (outputs_of out.new lens.new times.new) }
    {
        if segment.len() / PACKET_LENGTH <= index {
            return Err(Refusal::NoRoom.at(index));
        }
        let header = header_at(segment, index)?;
        let kind = self.tables.kind_of(records, header.pid);
        let packet = Packet {
            index,
            header,
            kind,
        };
        self.step_read(segment, packet, records, out, lens, times)?;
        Ok(kind)
    }

    // Takes the packet with this index: the table of document 01 in its sequence. Returns what its PID was. Returns
    // refusal 8 if the segment has no such packet, or if a payload comes and a place of the units lies beyond the
    // outputs. On a refusal the outputs are left unchanged, and state and records are those before the first packet.
    pub fn step(
        &mut self,
        segment: &[u8],
        index: usize,
        records: &mut Streams,
        out: &mut [u8],
        lens: &mut [usize],
        times: &mut [u64],
    ) -> Result<Kind, Refused>
        ensures { Steps self.old.tables.edition segment.now index self.old records.old
            (outputs_of out.old lens.old times.old) (stepped self.new result) records.new
            (outputs_of out.new lens.new times.new) }
    {
        let edition = self.tables.edition;
        match self.step_at(segment, index, records, out, lens, times) {
            Ok(kind) => Ok(kind),
            Err(refused) => {
                *self = State::fresh(edition);
                *records = Streams::fresh();
                Err(refused)
            }
        }
    }
}
