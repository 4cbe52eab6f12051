// The continuity counter of a PID's packets.
ghost use Rattle.std.specs.Prelude.{◌≡◌};
ghost use Rattle.packet.specs.Counter.{due, counter_right, bytes_same, repeats};
ghost use Rattle.packet.specs.Counter.{counted, copied, Of, Checks};

use crate::header::{Header, pcr_flag};
use lists::{part, rest, same};
use refusal::{Refusal, Refused};

// What the rule of the counter looks at in a packet. `equal` says that all its bytes but those of the PCR equal those
// of its PID's last packet.
#[derive(Clone, Copy)]
pub struct Counted {
    pub counter: u8,
    pub payload: bool,
    pub discontinuity: bool,
    pub index: usize,
    pub equal: bool,
}

// The last packet of a PID. `repeat` says that it repeated the packet before it.
#[derive(Clone, Copy)]
pub struct Last {
    pub counter: u8,
    pub index: usize,
    pub repeat: bool,
}

// A PID and its last packet; `None` if no packet was seen since the PID was named.
#[derive(Clone, Copy)]
pub struct Stream {
    pub pid: u16,
    pub last: Option<Last>,
}

// The record given back, and the verdict on a packet.
#[derive(Drop)]
pub struct Checked {
    pub stream: Stream,
    pub verdict: Result<(), Refused>,
}

impl Header {
    // Returns what the rule of the counter looks at.
    pub fn counted(self, index: usize, equal: bool) -> Counted
        ensures { result ≡ counted self index equal }
    {
        Counted {
            counter: self.counter,
            payload: self.payload.is_some(),
            discontinuity: self.discontinuity,
            index,
            equal,
        }
    }
}

impl Counted {
    // Returns whether the packet is a copy of its PID's last packet.
    fn is_copy(self) -> bool
        ensures { result ≡ copied self }
    {
        self.payload && !self.discontinuity && self.equal
    }
}

// Returns whether all bytes of two packets are equal but those of the PCR.
pub fn same_bytes(last: &[u8], packet: &[u8]) -> bool
    ensures { result ≡ bytes_same last.now packet.now }
{
    match (pcr_flag(last), pcr_flag(packet)) {
        (false, false) => same(last, packet),
        (true, true) => same(part(last, 0, 6), part(packet, 0, 6))
            && same(rest(last, 12), rest(packet, 12)),
        (true, false) | (false, true) => false,
    }
}

// Returns the counter that is due after the last one.
fn next_counter(last: u8, payload: bool) -> u8
    ensures { result ≡ due last payload }
{
    if payload {
        return (last % 16 + 1) % 16;
    }
    last
}

impl Stream {
    // Returns whether the packet repeats the last one.
    fn is_repeated_by(self, packet: Counted) -> bool
        ensures { Of self packet (λ t p. result ≡ repeats t p) }
    {
        let Some(last) = self.last else {
            return false;
        };
        packet.is_copy() && !last.repeat
    }

    // Returns whether the packet's counter is right after the last one.
    fn is_followed_by(self, packet: Counted) -> bool
        ensures { Of self packet (λ t p. result ≡ counter_right t.last p) }
    {
        let Some(last) = self.last else {
            return true;
        };
        packet.discontinuity || packet.counter == next_counter(last.counter, packet.payload)
    }

    // Checks a packet. Returns the record with the packet as its last one; or refusal 24 at place 0 if the packet's
    // counter is wrong, and the record as it was.
    // Stays: document 01 names the form: it takes self, and returns the new record with the verdict.
    pub fn check(self, packet: Counted) -> Checked
        ensures of { Of self packet (λ t p. Checks packet.index t p result) }
        ensures pid_value { result.stream.pid ≡ self.pid }
    {
        let repeat = self.is_repeated_by(packet);
        if !repeat && !self.is_followed_by(packet) {
            return Checked {
                stream: self,
                verdict: Err(Refusal::ContinuityCounter.at(0)),
            };
        }
        let last = Some(Last {
            counter: packet.counter,
            index: packet.index,
            repeat,
        });
        Checked {
            stream: Stream {
                pid: self.pid,
                last,
            },
            verdict: Ok(()),
        }
    }
}
