// PAT and PMT: the first of each is read, a later one compared with it.
ghost use Rattle.std.specs.Prelude.{◌≡◌};
ghost use Rattle.refusal.specs.Number.{number_of};
ghost use Rattle.segment_rules.specs.State as state;
ghost use Rattle.segment_rules.specs.Rules.{later_section};
ghost use Rattle.segment_rules.specs.Lying.{section_in};
ghost use Rattle.tables.specs.Tables.{Refines, SectionRefines, SectionRefused};
ghost use Rattle.tables.specs.Parts.{
  with_pids,
  FirstPatRefines,
  PatRefines,
  FirstPmtRefines,
  PmtRefines,
};

use crate::state::{Kind, PatFound, PmtFound};
use crate::tables::{Tables, pid_in};
use lists::part;
use packet::{FIRST_LISTED, Streams, packet_at, payload as payload_of};
use pmt::{Entry, read_pmt};
use psi::{find_section, read_pat, section_of};
use refusal::{Refusal, Refused};

// The slot of the map PID's record.
const MAP_SLOT: usize = 1;

// Returns the section that the packet with this index brought.
pub fn section_at(segment: &[u8], index: usize) -> &[u8]
    ensures { result.now ≡ section_in segment.now index }
{
    section_of(payload_of(packet_at(segment, index)))
}

// Returns the refusal at place 0 if a later section does not equal the first.
fn later_section(section: &[u8], first: &[u8], why: Refusal) -> Result<(), Refused>
    ensures { (t : state.Tables) →
        Refines result (later_section (number_of why) first.now section.now t) (λ u. u ≡ t) }
{
    if lists::same(section, first) {
        return Ok(());
    }
    Err(why.at(0))
}

// Names the PIDs of the entries in the slots of the listed streams.
// Stays: the entries of a `ProgramMap`, whose number is its type.
fn put_pids(entries: [Entry; 12], records: &mut Streams)
    ensures { records.new ≡ with_pids 2 entries records.old }
{
    for (i, entry) in entries.iter().enumerate() {
        records.put_pid(FIRST_LISTED + i, entry.pid);
    }
}

// Stays: segment, index and records are parameters, since `read_section` is promised of each (docs/PROMISES.md).
impl Tables {
    // Reads the first PAT, whose section the packet with this index brought. Returns refusal 25 if it is wrong.
    fn first_pat(
        &mut self,
        section: &[u8],
        index: usize,
        records: &mut Streams,
    ) -> Result<(), Refused>
        ensures first_pat_refines { FirstPatRefines index section.now self.old records.old
            (record { tables = self.new; outcome = result }) records.new }
        ensures section_refused { SectionRefused self.old records.old
            (record { tables = self.new; outcome = result }) records.new }
    {
        let says = read_pat(section)?;
        records.put_pid(MAP_SLOT, says.map_pid);
        self.pat = Some(PatFound {
            packet: index,
            says,
        });
        Ok(())
    }

    // Reads the PAT section that the packet with this index brought. Returns refusal 25 if it is wrong.
    fn pat_section(
        &mut self,
        segment: &[u8],
        index: usize,
        section: &[u8],
        records: &mut Streams,
    ) -> Result<(), Refused>
        ensures pat_refines { PatRefines segment.now index section.now self.old records.old
            (record { tables = self.new; outcome = result }) records.new }
        ensures section_refused { SectionRefused self.old records.old
            (record { tables = self.new; outcome = result }) records.new }
    {
        match self.pat {
            None => self.first_pat(section, index, records),
            Some(first) => later_section(section, section_at(segment, first.packet), Refusal::Pat),
        }
    }

    // Reads the first PMT of the PAT's program, whose section the packet with this index brought. Returns refusal 26,
    // 27 or 28 if it is wrong.
    fn first_pmt(
        &mut self,
        section: &[u8],
        index: usize,
        pat: PatFound,
        records: &mut Streams,
    ) -> Result<(), Refused>
        ensures first_pmt_refines { FirstPmtRefines index section.now pat self.old records.old
            (record { tables = self.new; outcome = result }) records.new }
        ensures section_refused { SectionRefused self.old records.old
            (record { tables = self.new; outcome = result }) records.new }
    {
        let program = pat.says;
        let map = read_pmt(self.edition, section, program.number, program.map_pid)?;
        let entries = map.entries;
        put_pids(entries, records);
        self.pmt = Some(PmtFound {
            packet: index,
            pcr_pid: map.pcr_pid,
            av1_pid: pid_in(entries, map.av1),
            listed: map.count,
        });
        Ok(())
    }

    // Reads the PMT section that the packet with this index brought. Returns refusal 26, 27 or 28 if it is wrong. A
    // section before the PAT is passed over.
    fn pmt_section(
        &mut self,
        segment: &[u8],
        index: usize,
        section: &[u8],
        records: &mut Streams,
    ) -> Result<(), Refused>
        ensures pmt_refines { PmtRefines segment.now index section.now self.old records.old
            (record { tables = self.new; outcome = result }) records.new }
        ensures section_refused { SectionRefused self.old records.old
            (record { tables = self.new; outcome = result }) records.new }
    {
        let Some(found) = self.pat else {
            return Ok(());
        };
        match self.pmt {
            None => self.first_pmt(section, index, found, records),
            Some(first) => later_section(section, section_at(segment, first.packet), Refusal::Pmt),
        }
    }

    // Reads the payload of the packet with this index, whose PID is of this kind. Returns refusal 25, 26, 27 or 28 if a
    // section is wrong; the tables and the records are then left unchanged.
    pub fn read_section(
        &mut self,
        segment: &[u8],
        index: usize,
        payload: &[u8],
        start: bool,
        kind: Kind,
        records: &mut Streams,
    ) -> Result<(), Refused>
        ensures section_refines { SectionRefines segment.now index payload.now start kind self.old records.old
            (record { tables = self.new; outcome = result }) records.new }
        ensures section_refused { SectionRefused self.old records.old
            (record { tables = self.new; outcome = result }) records.new }
    {
        match kind {
            Kind::Pat => {
                let size = find_section(payload, start).ok_or(Refusal::Pat.at(0))?;
                self.pat_section(segment, index, part(payload, 1, size), records)
            }
            Kind::Map => {
                let size = find_section(payload, start).ok_or(Refusal::Pmt.at(0))?;
                self.pmt_section(segment, index, part(payload, 1, size), records)
            }
            _ => Ok(()),
        }
    }
}
