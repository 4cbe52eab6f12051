// What a packet's PID is, and what its PCR does to the tables.
ghost use Rattle.std.specs.Prelude.{◌≡◌, get_or};
ghost use Rattle.pmt.specs.Answer.{no_entry};
ghost use Rattle.tables.specs.Tables.{fresh_tables, KindRefines, PcrRefines};
ghost use Rattle.tables.specs.Parts.{ListedRefines};

use crate::state::{Kind, PatFound, PmtFound};
use descriptor::Edition;
use packet::{Header, NULL_PID, Streams};
use pmt::Entry;
use ticks::Ticks27;

// The edition that is followed, the first sections, and the last PCR that counted. The records of the counters are lent
// beside it.
#[derive(Clone, Copy)]
pub struct Tables {
    pub edition: Edition,
    pub pat: Option<PatFound>,
    pub pmt: Option<PmtFound>,
    pub pcr: Option<Ticks27>,
}

// Returns the PID of the entry in a slot.
// Stays: the entries of a `ProgramMap`, whose number is its type.
pub(crate) fn pid_in(entries: [Entry; 12], slot: usize) -> u16
    ensures { result ≡ (get_or entries slot no_entry).pid }
{
    entries.get(slot).map_or(0, |entry| entry.pid)
}

impl Tables {
    // Returns the tables before the first packet.
    pub fn fresh(edition: Edition) -> Tables
        ensures { result ≡ fresh_tables edition }
    {
        Tables {
            edition,
            pat: None,
            pmt: None,
            pcr: None,
        }
    }

    // Returns what a listed PID is, or that it is not listed; the PAT was seen.
    fn listed_as(&self, records: &Streams, pid: u16) -> Kind
        ensures { ListedRefines self.now records.now pid result }
    {
        let Some(found) = self.pmt else {
            return Kind::Unlisted;
        };
        let Some(slot) = records.look_up(found.listed, pid) else {
            return Kind::Unlisted;
        };
        if pid == found.av1_pid {
            return Kind::Av1(slot);
        }
        Kind::Listed(slot)
    }

    // Returns what a PID is at that moment.
    pub fn kind_of(&self, records: &Streams, pid: u16) -> Kind
        ensures { KindRefines self.now records.now pid result }
    {
        if pid == NULL_PID {
            return Kind::Null;
        }
        if pid == 0 {
            return Kind::Pat;
        }
        let Some(found) = self.pat else {
            return Kind::Unlisted;
        };
        if pid == found.says.map_pid {
            return Kind::Map;
        }
        self.listed_as(records, pid)
    }

    // Returns the last PCR that counted up to this packet.
    pub fn last_pcr(&self, header: Header) -> Option<Ticks27>
        ensures { PcrRefines self.now header result }
    {
        let Some(found) = self.pmt else {
            return self.pcr;
        };
        if header.pid != found.pcr_pid {
            return self.pcr;
        }
        header.pcr.or(self.pcr)
    }
}
