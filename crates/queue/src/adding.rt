// One more unit.
ghost use Rattle.std.specs.Prelude.{◌≡◌, List};
ghost use Rattle.queue.specs.Queue.{TimedUnit, time_past, unacceptable, QueueIs, timed};
ghost use Rattle.queue.specs.Answer.{Adds};

use crate::records::{MOST_UNITS, Queue, Queued};
use lists::copy;
use refusal::{Refusal, Refused};
use ticks::Ticks90;

impl Queue {
    // Adds a unit behind those that are queued, whose bytes stand in the store. Returns refusal 50, 51 or 8; queue and
    // store are then left unchanged.
    pub fn add(
        &mut self,
        store: &mut [u8],
        unit: &[u8],
        pts: Ticks90,
        dts: Ticks90,
        marked: bool,
    ) -> Result<(), Refused>
        ensures { (units : List TimedUnit) → QueueIs self.old store.old units
            → Adds (timed unit.now pts dts marked) units store.old
            (record { answer = result; queue = self.new }) store.new }
    {
        if MOST_UNITS <= self.count {
            return Err(Refusal::QueueFull.at(0));
        }
        if not_acceptable(unit, pts, dts) {
            return Err(Refusal::QueuedUnit.at(0));
        }
        let used = self.total;
        if store.len() < used {
            return Err(Refusal::NoRoom.at(0)); // no queue that the operations lead to
        }
        if store.len() - used < unit.len() {
            return Err(Refusal::NoRoom.at(0));
        }
        copy(unit, &mut store[used..]);
        self.push(Queued {
            length: unit.len(),
            pts,
            dts,
            marked,
        });
        Ok(())
    }
}

// Returns whether the time has more than 33 bits.
fn time_past(time: Ticks90) -> bool
    ensures { result ≡ time_past time }
{
    8589934592 <= time.0
}

// Returns whether reading refuses the unit, or a time has more than 33 bits.
#[tactic(auto, using(crate::proofs::Operations::reading_fails), unfolding(crate::specs::Queue::unacceptable))]
fn not_acceptable(unit: &[u8], pts: Ticks90, dts: Ticks90) -> bool
    ensures { result ≡ unacceptable unit.now pts dts }
{
    unit::check(unit).is_err() || time_past(pts) || time_past(dts)
}
