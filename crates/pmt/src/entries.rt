// The entries of a map, tried in order.
ghost use Rattle.std.specs.Prelude.{◌≡◌};
ghost use Rattle.refusal.specs.Number.{says};
ghost use Rattle.descriptor.specs.Naming.{edition_says};
ghost use Rattle.pmt.specs.Pmt.{pid_field, length_field, pid_wrong};
ghost use Rattle.pmt.specs.Parts.{kind_from, pids_in, tried_entry, with_kind, list_read};

use crate::loops::{Found, read_loop};
use crate::slots::Entries;
use descriptor::Edition;
use packet::NULL_PID;
use refusal::{Refusal, Refused};

// The most entries of a map.
const MOST_ENTRIES: usize = 12;

// The stream_type of the AV1 entry.
const AV1_STREAM_TYPE: u8 = 0x06;

// An entry of the map.
#[derive(Clone, Copy)]
pub struct Entry {
    pub pid: u16,
    pub stream_type: u8,
}

// What an entry is to 28: another, an AV1 entry that is right with its video descriptor, or one against the rule.
#[derive(Clone, Copy)]
enum Kind {
    Other,
    Right(Option<[u8; 4]>),
    Misplaced,
}

// An entry that passed, how many bytes it takes, and what it is to 28.
#[derive(Clone, Copy)]
struct Tried {
    entry: Entry,
    size: usize,
    kind: Kind,
}

// What is known of the AV1 entry: none yet, the slot and the video descriptor of the only one, or that 28 is to be
// given.
#[derive(Clone, Copy)]
pub(crate) enum Av1 {
    Missing,
    One(usize, Option<[u8; 4]>),
    Wrong,
}

impl Av1 {
    // Returns what is known with one more entry of this kind in this slot.
    fn with(self, kind: Kind, slot: usize) -> Av1
        ensures { result ≡ with_kind kind slot self }
    {
        match (kind, self) {
            (Kind::Other, known) => known,
            (Kind::Right(video), Av1::Missing) => Av1::One(slot, video),
            _ => Av1::Wrong,
        }
    }
}

// The entries that passed, and what is known of the AV1 entry.
#[derive(Clone, Copy)]
pub(crate) struct Listed {
    pub(crate) entries: Entries,
    pub(crate) av1: Av1,
}

// Returns a PID, of which the first byte has the upper five bits.
pub(crate) fn pid_field(high: u8, low: u8) -> u16
    ensures { result ≡ pid_field high low }
{
    u16::from_be_bytes([high % 32, low])
}

// Returns a length, of which the first byte has the upper four bits.
pub(crate) fn length_field(high: u8, low: u8) -> usize
    ensures { result ≡ length_field high low }
{
    usize::from(u16::from_be_bytes([high % 16, low]))
}

// Returns true if the PID is 0, the null packets', the map's, or that of an earlier entry.
#[tactic(auto, using(crate::proofs::Filled::among), unfolding(crate::specs::Pmt::pid_wrong, lists::specs::Lists::any))]
fn pid_wrong(map_pid: u16, earlier: &Entries, pid: u16) -> bool
    ensures { result ≡ pid_wrong map_pid (pids_in earlier.now) pid }
{
    pid == 0 || pid == NULL_PID || pid == map_pid || earlier.contains_pid(pid)
}

// Returns what an entry with this stream_type and such a loop is to 28.
#[tactic(auto, unfolding(crate::specs::Parts::kind_from, lists::specs::Lists::pick))]
fn kind_from(stream_type: u8, found: Found) -> Kind
    ensures { result ≡ kind_from stream_type found }
{
    if found.later {
        Kind::Misplaced
    } else if !found.first {
        Kind::Other
    } else if stream_type != AV1_STREAM_TYPE || found.videos.wrong {
        Kind::Misplaced
    } else {
        Kind::Right(found.videos.first)
    }
}

// Returns the entry at the head of s, or refusal 26, which is tried wholly.
fn try_entry(edition: Edition, s: &[u8], map_pid: u16, earlier: &Entries) -> Result<Tried, Refused>
    ensures { says result ≡ tried_entry (edition_says edition) map_pid (pids_in earlier.now) s.now }
{
    if s.len() < 5 {
        return Err(Refusal::Pmt.at(0));
    }
    let size = 5 + length_field(s[3], s[4]);
    if s.len() < size {
        return Err(Refusal::Pmt.at(0));
    }
    let found = read_loop(edition, &s[5..size])?;
    let pid = pid_field(s[1], s[2]);
    if pid_wrong(map_pid, earlier, pid) {
        return Err(Refusal::Pmt.at(0));
    }
    let stream_type = s[0];
    Ok(Tried {
        entry: Entry { pid, stream_type },
        size,
        kind: kind_from(stream_type, found),
    })
}

// Returns the entries that fill s, each tried wholly for refusal 26; refusal 27 if bytes remain after a twelfth.
pub(crate) fn list_entries(edition: Edition, s: &[u8], map_pid: u16) -> Result<Listed, Refused>
    ensures { says result ≡ list_read (edition_says edition) map_pid s.now }
{
    let mut entries = Entries::none();
    let mut av1 = Av1::Missing;
    let mut at: usize = 0;
    // Stays: the length of each step stands in the entry, which is tried with the PIDs of those before it.
    while at < s.len() {
        if MOST_ENTRIES <= entries.count {
            return Err(Refusal::EntryCount.at(0));
        }
        let tried = try_entry(edition, &s[at..], map_pid, &entries)?;
        av1 = av1.with(tried.kind, entries.count);
        entries.push(tried.entry);
        at += tried.size;
    }
    Ok(Listed { entries, av1 })
}
