// The oldest unit dropped.
ghost use Rattle.std.specs.Prelude.{List};
ghost use Rattle.queue.specs.Queue.{TimedUnit, QueueIs};
ghost use Rattle.queue.specs.Answer.{Drops};

use crate::copying::move_down;
use crate::records::Queue;

impl Queue {
    // Drops the oldest unit; the bytes of the others move to the store's front. Returns false if there was none; queue
    // and store are then left unchanged.
    pub fn drop_oldest(&mut self, store: &mut [u8]) -> bool
        ensures { (units : List TimedUnit) → QueueIs self.old store.old units
            → Drops units store.old (record { dropped = result; queue = self.new }) store.new }
    {
        if self.count == 0 {
            return false;
        }
        let used = self.total;
        let first = self.units[0].length;
        if store.len() < used || used < first {
            return false; // no queue that the operations lead to
        }
        move_down(store, first, used - first);
        self.remove_first();
        true
    }
}
