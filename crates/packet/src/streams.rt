// The records of a segment's PIDs in slots: PID 0 has the first slot, the map PID the second, and the listed streams
// those behind them.
ghost use Rattle.std.specs.Prelude.{◌≡◌, [], ◌∷◌};
ghost use Rattle.packet.specs.Counter.{named};
ghost use Rattle.packet.specs.Streams.{
  look_up_from,
  listed_pids,
  mark_of,
  index_of,
  last_from,
  streams_of,
  last_in,
  with_last,
  with_pid,
};

use crate::counter::Last;

// The most records: of PID 0, of the map PID and of the streams that a program map may list.
const MOST_RECORDS: usize = 14;

// The most streams in a program map.
const MOST_STREAMS: usize = 12;

// The slot of the first listed stream.
pub const FIRST_LISTED: usize = 2;

// The records: fourteen PIDs, then a number for the counter and the repeat of each one's last packet, then its index.
#[derive(Clone, Copy)]
pub struct Streams {
    // Stays: numbers, since `check_counter`, `read_section` and `step` are promised for every 42 numbers.
    pub numbers: [u64; 42],
}

// Returns the last packet that these two numbers stand for.
fn last_from(mark: u64, index: u64) -> Option<Last>
    ensures { result ≡ last_from mark index }
{
    if mark == 0 {
        return None;
    }
    Some(Last {
        counter: ((mark - 1) / 2 % 256) as u8,
        index: index as usize,
        repeat: (mark - 1) % 2 == 1,
    })
}

// Returns the number for the counter and the repeat of a last packet; 0 if there is none.
fn mark_of(last: Option<Last>) -> u64
    ensures { result ≡ mark_of last }
{
    match last {
        None => 0,
        Some(last) => 2 * last.counter as u64 + last.repeat as u64 + 1,
    }
}

// Returns the index of a last packet; 0 if there is none.
fn index_of(last: Option<Last>) -> u64
    ensures { result ≡ index_of last }
{
    match last {
        None => 0,
        Some(last) => last.index as u64,
    }
}

impl Streams {
    // Returns the records before the first packet: PID 0 alone has been named.
    pub fn fresh() -> Streams
        ensures { result ≡ streams_of (named 0 ∷ []) }
    {
        Streams { numbers: [0; 42] }
    }

    // Returns the first slot that has the PID among those of so many listed streams.
    // Stays: document 01 names the form: a loop over at most twelve records that breaks with the slot index.
    pub fn look_up(&self, listed: usize, pid: u16) -> Option<usize>
        ensures { result ≡ look_up_from 2 pid (listed_pids listed self.now) }
    {
        let mut i: usize = 0;
        loop {
            if listed <= i {
                break None;
            }
            if MOST_STREAMS <= i {
                break None;
            }
            if self.numbers[FIRST_LISTED + i] == pid as u64 {
                break Some(FIRST_LISTED + i);
            }
            i += 1;
        }
    }

    // Returns the last packet in a slot; `None` if there is no such slot.
    pub fn last_at(&self, slot: usize) -> Option<Last>
        ensures { result ≡ last_in self.now slot }
    {
        if MOST_RECORDS <= slot {
            return None;
        }
        last_from(
            self.numbers[MOST_RECORDS + slot],
            self.numbers[2 * MOST_RECORDS + slot],
        )
    }

    // Writes the last packet in a slot, if there is such a slot.
    pub fn put_last(&mut self, slot: usize, last: Option<Last>)
        ensures { self.new ≡ with_last self.old slot last }
    {
        if slot < MOST_RECORDS {
            self.numbers[MOST_RECORDS + slot] = mark_of(last);
            self.numbers[2 * MOST_RECORDS + slot] = index_of(last);
        }
    }

    // Names the PID of a slot, if there is such a slot.
    pub fn put_pid(&mut self, slot: usize, pid: u16)
        ensures { self.new ≡ with_pid self.old slot pid }
    {
        if slot < MOST_RECORDS {
            self.numbers[slot] = pid as u64;
        }
    }
}
