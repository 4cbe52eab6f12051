// The PMT section.
ghost use Rattle.std.specs.Prelude.{◌≡◌, ◌≤◌, length};
ghost use Rattle.refusal.specs.Number.{says};
ghost use Rattle.descriptor.specs.Naming.{edition_says};
ghost use Rattle.pmt.specs.Pmt.{read_pmt};
ghost use Rattle.pmt.specs.Answer.{mapped, no_map};
ghost use Rattle.pmt.specs.Parts.{listed_map, body_map};

use crate::entries::{Av1, Entry, Listed, length_field, list_entries, pid_field};
use crate::loops::read_loop;
use crate::slots::Entries;
use descriptor::Edition;
use refusal::{Refusal, Refused};

// What a PMT says: the PCR PID; how many entries, and the entries in the first slots; the AV1 entry's slot, and the
// four bytes that its video descriptor has after its tag and length, if it has one.
#[derive(Clone, Copy)]
pub struct ProgramMap {
    pub pcr_pid: u16,
    // Stays: the count and the slots are two fields of a map, as `map_of` (specs/Answer.antt) states each of them.
    pub count: usize,
    pub entries: [Entry; 12],
    pub av1: usize,
    pub video: Option<[u8; 4]>,
}

impl ProgramMap {
    // Returns no map: zeros, and no video descriptor.
    pub fn none() -> ProgramMap
        ensures { result ≡ no_map }
    {
        let none = Entries::none();
        let entries = none.slots;
        ProgramMap {
            pcr_pid: 0,
            count: 0,
            entries,
            av1: 0,
            video: None,
        }
    }
}

// Returns the map of the entries that passed, or refusal 28.
fn map_listed(pcr_pid: u16, listed: Listed) -> Result<ProgramMap, Refused>
    ensures { says result ≡ listed_map pcr_pid listed }
{
    let Av1::One(av1, video) = listed.av1 else {
        return Err(Refusal::Av1Entry.at(0));
    };
    let Entries { slots, count } = listed.entries;
    Ok(ProgramMap {
        pcr_pid,
        count,
        entries: slots,
        av1,
        video,
    })
}

// Returns what stands behind the fixed fields of a section, the program's descriptors and then the entries, or refusal
// 26, 27 or 28.
fn read_body(edition: Edition, section: &[u8], map_pid: u16) -> Result<ProgramMap, Refused>
    requires { 16 ≤ length section.now }
    ensures { says result ≡ body_map (edition_says edition) map_pid section.now }
{
    let end = section.len() - 4;
    let info = 12 + length_field(section[10], section[11]);
    if end < info {
        return Err(Refusal::Pmt.at(0));
    }
    read_loop(edition, &section[12..info])?;
    let listed = list_entries(edition, &section[info..end], map_pid)?;
    map_listed(pid_field(section[8], section[9]), listed)
}

// Returns what a PMT section of this program on this map PID says in this edition, or refusal 26, 27 or 28.
#[tactic(auto, using(psi::proofs::Fields::long_enough))]
pub fn read_pmt(
    edition: Edition,
    section: &[u8],
    program: u16,
    map_pid: u16,
) -> Result<ProgramMap, Refused>
    ensures { says result
        ≡ mapped (edition_says edition) (read_pmt (edition_says edition) program map_pid section.now) }
{
    if psi::common_wrong(section, 2, 16) {
        return Err(Refusal::Pmt.at(0));
    }
    if u16::from_be_bytes([section[3], section[4]]) != program {
        return Err(Refusal::Pmt.at(0));
    }
    read_body(edition, section, map_pid)
}
