// The queue of the segment writer, and send.
ghost use Rattle.std.specs.Prelude.{◌≡◌, false, not, List, [], eqb};
ghost use Rattle.queue.specs.Queue.{TimedUnit, timed, queue_of};
ghost use Rattle.answers.specs.Queueing.{drop_answer};
ghost use Rattle.av1ts.specs.Queueing.{Holds, AddsTo, DropsFrom, SendsFrom};

use answers::{ChannelState, QueueState, QueuedAnswer, SentAnswer};
use mux_rules::Channel;
use queue::Queue;
use ticks::Ticks90;

// Adds a unit to the queue; 50, 51, 8.
#[unsafe(no_mangle)]
pub extern "C" fn av1ts_queue_add(
    queue: QueueState,
    store: &mut [u8],
    unit: &[u8],
    pts: u64,
    dts: u64,
    marked: u64,
) -> QueuedAnswer
    ensures { (units : List TimedUnit) → Holds queue store.old units
        → AddsTo (timed unit.now (record { 0 = pts }) (record { 0 = dts }) (not (eqb marked 0))) units
        store.old result store.new }
{
    let mut inner: Queue = queue.into();
    let answer = inner.add(store, unit, Ticks90(pts), Ticks90(dts), marked != 0);
    QueuedAnswer::added(answer, inner)
}

// Drops the oldest unit.
#[unsafe(no_mangle)]
pub extern "C" fn av1ts_queue_drop(queue: QueueState, store: &mut [u8]) -> QueuedAnswer
    ensures { (units : List TimedUnit) → Holds queue store.old units
        → DropsFrom units store.old result store.new }
{
    let mut inner: Queue = queue.into();
    let dropped = inner.drop_oldest(store);
    QueuedAnswer::dropped(dropped, inner)
}

// Drops all units.
#[unsafe(no_mangle)]
pub extern "C" fn av1ts_queue_clear(queue: QueueState) -> QueuedAnswer
    ensures { result ≡ drop_answer false (queue_of []) }
{
    let mut inner: Queue = queue.into();
    inner.clear();
    QueuedAnswer::dropped(true, inner)
}

// How many bytes are queued.
#[unsafe(no_mangle)]
pub extern "C" fn av1ts_queue_total(queue: QueueState) -> u64
    ensures { result ≡ queue.total }
{
    Queue::from(queue).total() as u64
}

// Writes the queued units as a segment; 52, 53, 8.
#[unsafe(no_mangle)]
pub extern "C" fn av1ts_queue_send(
    queue: QueueState,
    store: &[u8],
    channel: ChannelState,
    descriptor: &[u8],
    out: &mut [u8],
) -> SentAnswer
    ensures { (units : List TimedUnit) → Holds queue store.now units
        → SendsFrom channel descriptor.now units out.old result out.new }
{
    let mut inner: Queue = queue.into();
    let mut next: Channel = channel.into();
    let answer = mux::send(&mut inner, store, &mut next, descriptor, out);
    SentAnswer::sent(answer, next, inner)
}
