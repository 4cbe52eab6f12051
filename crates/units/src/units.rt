// The access units: a PES opens, takes payload and closes.
ghost use Rattle.std.specs.Prelude.{◌≡◌, ◌&&◌, ℕ, ◌+◌, ◌*◌, ◌≤◌, ◌<◌, ◌^◌, ltb, length, Ok};
ghost use Rattle.refusal.specs.Verdict.{at_place};
ghost use Rattle.refusal.specs.Number.{says};
ghost use Rattle.pes.specs.Pes.{reading};
ghost use Rattle.descriptor.specs.Naming.{edition_says};
ghost use Rattle.segment_rules.specs.Rules.{length_differs};
ghost use Rattle.segment_rules.specs.Check.{outputs_of};
ghost use Rattle.units.specs.Extraction.{
  fresh_extraction,
  units_begun,
  first_of,
  first_noted,
  rooms_in,
  Fits,
  open_pes,
  is_beyond,
  UnitsRefused,
  TakesPayload,
  Closes,
};
ghost use Rattle.units.specs.Parts.{
  kept,
  is_absent,
  JudgeRefines,
  closed_units,
  lens_closed,
  times_closed,
  JudgedRefines,
  MayOpenRefines,
  OpeningRefines,
  AddsPayload,
  StartsPes,
};

use crate::outputs::{put_unit, time_pair};
use crate::state::PesFound;
use descriptor::Edition;
use lists::{copy, part, rest};
use pes::{Header, Times};
use refusal::{Refusal, Refused};

// The most units of a segment.
const MOST_UNITS: usize = 1024;

// The open PES, the units closed so far, and where in the output the next unit begins and how many bytes of it are
// there.
#[derive(Clone, Copy)]
pub struct Extraction {
    pub pes: Option<PesFound>,
    pub units: usize,
    pub start: usize,
    pub bytes: usize,
}

// What is known where a packet carries a payload: its index, whether a PCR has counted, and the edition that
// is followed.
#[derive(Clone, Copy)]
pub struct Arrival {
    pub index: usize,
    pub pcr_seen: bool,
    pub edition: Edition,
}

// Stays: `out`, `lens`, `times` are parameters: of references in a struct each contract must say that each is the same.
impl Extraction {
    // Returns the units before the first packet.
    pub fn fresh() -> Extraction
        ensures { result ≡ fresh_extraction }
    {
        Extraction {
            pes: None,
            units: 0,
            start: 0,
            bytes: 0,
        }
    }

    // Closes the open PES, if there is one: refusal 32, then those of reading its unit. Returns refusal 8 if a place
    // that is kept lies beyond the outputs. On a refusal the outputs stay as they were, and the units are those before
    // the first packet.
    pub fn close(
        &mut self,
        out: &[u8],
        lens: &mut [usize],
        times: &mut [u64],
    ) -> Result<(), Refused>
        ensures { Closes self.old (outputs_of out.now lens.old times.old)
            (record { extraction = self.new; outcome = result })
            (outputs_of out.now lens.new times.new) }
    {
        let next = self.close_in(out, lens, times);
        self.keep(next)
    }

    // Takes the AV1 payload of a packet, which starts a PES or goes on with one. Returns refusal 8 if a place that is
    // kept lies beyond the outputs. On a refusal the outputs stay as they were, and the units are those before the
    // first packet.
    pub fn take_payload(
        &mut self,
        arrival: Arrival,
        starts: bool,
        payload: &[u8],
        out: &mut [u8],
        lens: &mut [usize],
        times: &mut [u64],
    ) -> Result<(), Refused>
        ensures { TakesPayload (edition_says arrival.edition) starts arrival.index payload.now
            arrival.pcr_seen self.old (outputs_of out.old lens.old times.old)
            (record { extraction = self.new; outcome = result })
            (outputs_of out.new lens.new times.new) }
    {
        let next = self.take_in(arrival, starts, payload, out, lens, times);
        self.keep(next)
    }

    // Keeps the units after a packet. On a refusal nobody goes on from them, so those before the first packet are kept.
    fn keep(&mut self, next: Result<Extraction, Refused>) -> Result<(), Refused>
        ensures { kept next ≡ record { extraction = self.new; outcome = result } }
    {
        match next {
            Ok(units) => {
                *self = units;
                Ok(())
            }
            Err(refused) => {
                *self = Extraction::fresh();
                Err(refused)
            }
        }
    }

    // Returns how many units have begun but not closed: 1 if a PES is open.
    fn open_units(self) -> usize
        ensures { (units : ℕ) → units + result ≡ units_begun self.pes units }
    {
        usize::from(self.pes.is_some())
    }

    // Returns whether a place that is kept lies beyond the outputs.
    fn is_beyond(self, out: &[u8], lens: &[usize], times: &[u64]) -> bool
        ensures { result ≡ is_beyond self (rooms_in out.now lens.now times.now) }
    {
        let more = self.open_units();
        passes(self.start, self.bytes, out.len())
            || passes(self.units, more, lens.len())
            || passes(self.units, more, times.len() / 2)
    }

    // Returns the units once the open PES has closed, if there is one.
    fn closed(self) -> Extraction
        requires { (units_begun self.pes self.units < 2 ^ 64) × (self.start + self.bytes < 2 ^ 64) }
        ensures { result ≡ closed_units self }
    {
        Extraction {
            pes: None,
            units: self.units + self.open_units(),
            start: self.start + self.bytes,
            bytes: 0,
        }
    }

    // Judges the open PES where it closes, if there is one: refusal 32, then those of reading its unit.
    fn judge_open(self, out: &[u8]) -> Result<(), Refused>
        ensures { JudgedRefines self out.now result }
    {
        match self.pes {
            None => Ok(()),
            Some(found) => {
                let unit = part(out, self.start, self.bytes);
                judge_unit(found, unit)
            }
        }
    }

    // Writes the length and the times of the PES that closes, if there is one, in its unit's place.
    fn put_closed(self, lens: &mut [usize], times: &mut [u64])
        requires { (units_begun self.pes self.units ≤ length lens.old)
            × (2 * units_begun self.pes self.units ≤ length times.old) }
        ensures lens_after { lens.new ≡ lens_closed self lens.old }
        ensures times_after { times.new ≡ times_closed self times.old }
    {
        if let Some(found) = self.pes {
            put_unit(
                self.units,
                self.bytes,
                time_pair(found.header.times),
                lens,
                times,
            );
        }
    }

    // Closes the open PES, as `close` does, and returns the units then.
    fn close_in(
        self,
        out: &[u8],
        lens: &mut [usize],
        times: &mut [u64],
    ) -> Result<Extraction, Refused>
        ensures { Closes self (outputs_of out.now lens.old times.old) (kept result)
            (outputs_of out.now lens.new times.new) }
    {
        if self.is_beyond(out, lens, times) {
            return Err(Refusal::NoRoom.at(0));
        }
        self.judge_open(out)?;
        self.put_closed(lens, times);
        Ok(self.closed())
    }

    // Judges whether a PES may open, these being the units where it is open: refusals 31, 34 and 8.
    fn may_open(
        self,
        arrival: Arrival,
        out: &[u8],
        lens: &[usize],
        times: &[u64],
    ) -> Result<(), Refused>
        ensures may_open_refines { MayOpenRefines arrival.index arrival.pcr_seen self
            (rooms_in out.now lens.now times.now) result }
        ensures fits { result ≡ (Ok tt) → Fits self (rooms_in out.now lens.now times.now) }
    {
        if !arrival.pcr_seen {
            return Err(Refusal::NoPcr.at(arrival.index));
        }
        if MOST_UNITS <= self.units {
            return Err(Refusal::UnitCount.at(arrival.index));
        }
        if self.is_beyond(out, lens, times) {
            return Err(Refusal::NoRoom.at(arrival.index));
        }
        Ok(())
    }

    // Opens a PES with this payload, no other being open: refusals 29, 30, 31, 34 and 8.
    fn open(
        self,
        arrival: Arrival,
        payload: &[u8],
        out: &mut [u8],
        lens: &[usize],
        times: &[u64],
    ) -> Result<Extraction, Refused>
        ensures opening_refines { OpeningRefines (edition_says arrival.edition) arrival.index
            payload.now arrival.pcr_seen self (rooms_in out.old lens.now times.now) out.old
            (kept result) out.new }
        ensures units_refused { UnitsRefused out.old (kept result) out.new }
    {
        let first = arrival.index;
        let header = read_header(payload, first)?;
        if untimed(arrival.edition, header.times) {
            return Err(Refusal::NoTimes.at(first));
        }
        let bytes = rest(payload, header.size as usize);
        let opened = Extraction {
            pes: Some(PesFound { first, header }),
            units: self.units,
            start: self.start,
            bytes: bytes.len(),
        };
        opened.may_open(arrival, out, lens, times)?;
        copy(bytes, &mut out[self.start..]);
        Ok(opened)
    }

    // Takes the payload of a packet that starts a PES: the open one closes, and another opens. The length and the times
    // of the unit that closes are written once the other PES may open.
    fn start(
        self,
        arrival: Arrival,
        payload: &[u8],
        out: &mut [u8],
        lens: &mut [usize],
        times: &mut [u64],
    ) -> Result<Extraction, Refused>
        requires { Fits self (rooms_in out.old lens.old times.old) }
        ensures { StartsPes (edition_says arrival.edition) arrival.index payload.now
            arrival.pcr_seen self (outputs_of out.old lens.old times.old) (kept result)
            (outputs_of out.new lens.new times.new) }
    {
        self.judge_open(out)?;
        let begun = self.closed().open(arrival, payload, out, lens, times)?;
        self.put_closed(lens, times);
        Ok(begun)
    }

    // Takes the payload of a packet that goes on with the open PES: refusals 29, 31 and 8.
    fn add(self, arrival: Arrival, payload: &[u8], out: &mut [u8]) -> Result<Extraction, Refused>
        requires { self.start + self.bytes ≤ length out.old }
        ensures adds_payload { AddsPayload arrival.index payload.now arrival.pcr_seen self out.old
            (kept result) out.new }
        ensures units_refused { UnitsRefused out.old (kept result) out.new }
    {
        let Some(_) = self.pes else {
            return Err(Refusal::PesHeader.at(arrival.index));
        };
        if !arrival.pcr_seen {
            return Err(Refusal::NoPcr.at(arrival.index));
        }
        let written = self.start + self.bytes;
        if out.len() - written < payload.len() {
            return Err(Refusal::NoRoom.at(arrival.index));
        }
        copy(payload, &mut out[written..]);
        Ok(Extraction {
            bytes: self.bytes + payload.len(),
            ..self
        })
    }

    // Takes a payload, as `take_payload` does, and returns the units then.
    fn take_in(
        self,
        arrival: Arrival,
        starts: bool,
        payload: &[u8],
        out: &mut [u8],
        lens: &mut [usize],
        times: &mut [u64],
    ) -> Result<Extraction, Refused>
        ensures { TakesPayload (edition_says arrival.edition) starts arrival.index payload.now
            arrival.pcr_seen self (outputs_of out.old lens.old times.old) (kept result)
            (outputs_of out.new lens.new times.new) }
    {
        if self.is_beyond(out, lens, times) {
            return Err(Refusal::NoRoom.at(arrival.index));
        }
        if starts {
            return self.start(arrival, payload, out, lens, times);
        }
        self.add(arrival, payload, out)
    }
}

// Returns whether so many elements from a place on pass the end of an output of this length.
fn passes(place: usize, elements: usize, room: usize) -> bool
    ensures { result ≡ ltb room (place + elements) }
{
    room < place || room - place < elements
}

// Returns whether the PES length is not 0 and not the number of PES bytes after that field, where the unit has so many
// bytes.
fn length_wrong(header: Header, bytes: usize) -> bool
    requires { bytes < 2 ^ 63 }
    ensures { result ≡ length_differs header bytes }
{
    header.length != 0 && header.length as usize + 6 != header.size as usize + bytes
}

// Returns what the header of this packet's payload says, or the refusal of it at the packet.
#[tactic(auto, unfolding(refusal::specs::Verdict::at_place))]
fn read_header(payload: &[u8], index: usize) -> Result<Header, Refused>
    ensures { says result ≡ at_place index (reading payload.now) }
{
    pes::read(payload).map_err(|refused| refused.why.at(index))
}

// Judges the unit of a PES that closes: refusal 32, then those of reading the unit, at the packet that began the PES.
fn judge_unit(found: PesFound, unit: &[u8]) -> Result<(), Refused>
    ensures { JudgeRefines (open_pes found unit.now) result }
{
    if length_wrong(found.header, unit.len()) {
        return Err(Refusal::PesLength.at(found.first));
    }
    unit::check(unit).map_err(|refused| refused.why.at(found.first))?;
    Ok(())
}

// Returns whether the times are absent and the edition needs them.
fn untimed(edition: Edition, times: Option<Times>) -> bool
    ensures { result ≡ ((edition_says edition).times_needed && is_absent times) }
{
    edition.times_needed() && times.is_none()
}

// Returns the packet that began the open PES; 0 if none is open.
fn first_of(pes: Option<PesFound>) -> usize
    ensures { result ≡ first_of pes }
{
    pes.map_or(0, |found| found.first)
}

// Writes the packet that began the PES which was open before in its unit's place, if a unit more has closed since and
// the list has the place.
pub fn note_first(before: Extraction, after: Extraction, firsts: &mut [usize])
    ensures { firsts.new ≡ first_noted before after firsts.old }
{
    let unit = before.units;
    if after.units <= unit || firsts.len() <= unit {
        return;
    }
    firsts[unit] = first_of(before.pes);
}
