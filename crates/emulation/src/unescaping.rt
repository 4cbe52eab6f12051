// Legal payloads, and unescaping one payload.
ghost use Rattle.refusal.specs.Number.{says};
ghost use Rattle.std.specs.Prelude.{◌≡◌, true, ◌+◌, ◌-◌, ◌≤◌, ◌<◌, length, take, drop};
ghost use Rattle.lists.specs.Lists.{over};
ghost use Rattle.refusal.specs.Verdict.{leaves};
ghost use Rattle.emulation.specs.Payload.{forbidden, first_forbidden};
ghost use Rattle.emulation.specs.Blocks.{paired};
ghost use Rattle.emulation.specs.Parts.{Fresh, Keeps, Gives, Lawful};
ghost use Rattle.emulation.specs.Payload.{unescape as payload_unescape};
ghost use Rattle.emulation.specs.Payload.{dropped as payload_dropped};
ghost use Rattle.emulation.specs.Answer.{unescaping, judging};

use crate::blocks::{
    BLOCK, Reached, block_end, count_places, forbidden_at, pair_at, places, run_end, wide,
    zeros_then, zeros_then_at,
};
use crate::writing::copy_unmarked;
use lists::{copy, copy_rest, put};
use refusal::{Refusal, Refused};

// The most bytes that unescaping takes.
const MOST_UNESCAPED: usize = 1572864;

// How many bytes unescaping wrote and how many it dropped.
#[derive(Drop)]
pub struct Counts {
    pub written: usize,
    pub dropped: usize,
}

// Returns true if a forbidden sequence begins at i, where 00 00 stands.
fn forbidden_pair(s: &[u8], i: usize) -> bool
    requires { (i + 2 < length s.now) × (paired (drop i s.now) ≡ true) }
    ensures { result ≡ forbidden (drop i s.now) }
{
    let c = s[i + 2];
    if c != 3 {
        return c <= 2;
    }
    4 <= s.len() - i && 3 < s[i + 3]
}

// Returns the first place from i on at which a forbidden sequence begins, or the end, and how many bytes unescaping
// drops before it. A byte that is not 00 rules out two places.
fn lawful_places(s: &[u8], i: usize) -> Reached
    requires { i ≤ length s.now }
    ensures lawful { Lawful s.now i result.place result.count }
    ensures s_value { first_forbidden (drop result.place s.now) ≡ 0 }
{
    let last = places(s);
    let mut count: usize = 0;
    let mut place = i;
    // Stays: a turn goes on by one, two or three places, by the bytes there; a `for` over all looks at each byte.
    while place < last {
        if s[place + 1] != 0 {
            place += 2;
        } else if s[place] != 0 {
            place += 1;
        } else {
            if forbidden_pair(s, place) {
                return Reached { place, count };
            }
            if s[place + 2] == 3 {
                count += 1;
            }
            place += 3;
        }
    }
    Reached {
        place: s.len(),
        count,
    }
}

// Passes over the blocks of s from i on in which no forbidden sequence begins, as long as a whole one with three bytes
// after it is left. Returns the place behind them, and how many bytes unescaping drops before it.
fn lawful_blocks(s: &[u8], i: usize) -> Reached
    requires { i ≤ length s.now }
    ensures { Lawful s.now i result.place result.count }
{
    let mut count: usize = 0;
    let mut place = i;
    // Stays: a `for` over `(i..s.len()).step_by(BLOCK)` has to return at too short a rest, and again behind the loop.
    while BLOCK + 3 <= s.len() - place {
        if count_places(s, place, pair_at) != 0 {
            if count_places(s, place, forbidden_at) != 0 {
                return Reached { place, count };
            }
            count += wide(count_places(s, place, zeros_then_at::<3, 3>));
        }
        place += BLOCK;
    }
    Reached { place, count }
}

// Returns the first place from `from` on at which a forbidden sequence begins, or the end, and how many bytes
// unescaping drops before it.
pub fn first_forbidden(s: &[u8], from: usize) -> Reached
    ensures place_value { result.place ≡ from + first_forbidden (drop from s.now) }
    ensures count_value { result.count
        ≡ payload_dropped (take (first_forbidden (drop from s.now)) (drop from s.now)) }
{
    if s.len() <= from {
        return Reached {
            place: from,
            count: 0,
        };
    }
    let blocks = lawful_blocks(s, from);
    let rest = lawful_places(s, blocks.place);
    Reached {
        place: rest.place,
        count: blocks.count + rest.count,
    }
}

// Returns how many bytes unescaping drops from a payload, or refusal 10 at the place of a forbidden sequence if the
// payload is not legal.
pub fn judge(payload: &[u8]) -> Result<usize, Refused>
    ensures { says result ≡ judging payload.now }
{
    let reached = first_forbidden(payload, 0);
    if reached.place < payload.len() {
        return Err(Refusal::IllegalPayload.at(reached.place));
    }
    Ok(reached.count)
}

// Writes what the payload unescapes to between place i and place end into out from n on, as far as out has room.
// Returns the places that it comes to in the payload and in out.
fn unescape_places(payload: &[u8], i: usize, end: usize, out: &mut [u8], n: usize) -> Reached
    requires { (i < end) × (end + 2 ≤ length payload.now) × (n < length out.old) }
    ensures gives { Gives payload_unescape payload.now i out.old n result.place result.count
        out.new }
    ensures n_lt_count { n < result.count }
{
    let mut count = n;
    let mut place = i;
    // Stays: a turn takes one byte or three, by what stands there, so that no range gives the places.
    while place < end {
        if out.len() <= count {
            return Reached { place, count };
        }
        if zeros_then_at::<3, 3>(payload, place) {
            count = put(out, count, 0);
            count = put(out, count, 0);
            place += 3; // the 03 is dropped
        } else {
            count = put(out, count, payload[place]);
            place += 1;
        }
    }
    Reached { place, count }
}

// What is to stand where b would be given, and how far to go on there.
#[derive(Drop)]
struct Kept {
    byte: u8,
    step: usize,
}

// Returns `old` and step 0 if b is dropped behind p and q, or else b and step 1.
fn keep(p: u8, q: u8, b: u8, old: u8) -> Kept
    ensures { Keeps p q b old result.byte result.step }
{
    if zeros_then::<3, 3>(p, q, b) {
        return Kept { byte: old, step: 0 };
    }
    Kept { byte: b, step: 1 }
}

// Writes what the payload unescapes to from place i to place end into out from n on, which has room for as many bytes.
// From `end` on unescaping goes on as from the front. Returns the place behind the last byte written. A byte that is
// dropped is written as what stands there, so that no store waits for a test.
fn unescape_run(payload: &[u8], i: usize, end: usize, out: &mut [u8], n: usize) -> usize
    requires { (i < end) × (end ≤ length payload.now) × Fresh payload.now end
        × (n + (end - i) ≤ length out.old) }
    ensures gives { Gives payload_unescape payload.now i out.old n end result out.new }
    ensures lower_bound { n < result }
{
    let mut p: u8 = 1;
    let mut q = payload[i];
    let mut count = n + 1;
    out[n] = q;
    for place in i + 1..end {
        let b = payload[place];
        let kept = keep(p, q, b, out[count]);
        out[count] = kept.byte;
        count += kept.step;
        p = q;
        q = b;
    }
    count
}

// Writes what the payload unescapes to over the front of out, as far as out has room. Returns how many bytes it wrote.
pub fn unescape_prefix(payload: &[u8], out: &mut [u8]) -> usize
    ensures value { result ≡ length (take (length out.old) (payload_unescape payload.now)) }
    ensures out_after { out.new
        ≡ over (take (length out.old) (payload_unescape payload.now)) out.old }
{
    let last = places(payload);
    let mut n: usize = 0;
    let mut i: usize = 0;
    // Stays: a turn takes a block, a run or what there is room for, so that no range gives the places.
    while i < last {
        if out.len() <= n {
            return n;
        }
        if copy_unmarked(payload, i, out, n) {
            n += BLOCK;
            i += BLOCK;
        } else {
            let end = run_end(payload, i);
            if end - i <= out.len() - n {
                n = unescape_run(payload, i, end, out, n);
                i = end;
            } else {
                let reached = unescape_places(payload, i, block_end(i, last), out, n);
                n = reached.count;
                i = reached.place;
            }
        }
    }
    copy_rest(payload, i, out, n)
}

// Writes what the payload unescapes to over the front of out, which has room for it; unescaping drops `dropped` bytes.
fn unescape_whole(payload: &[u8], dropped: usize, out: &mut [u8])
    requires { (dropped ≡ payload_dropped payload.now)
        × (length (payload_unescape payload.now) ≤ length out.old) }
    ensures { out.new ≡ over (payload_unescape payload.now) out.old }
{
    if dropped == 0 {
        copy(payload, out);
        return;
    }
    unescape_prefix(payload, out);
}

// Writes what the payload unescapes to over the front of out. Returns how many bytes it wrote and dropped, or refusal 2
// if the payload is too long, then 10 if it is not legal, then 8 if out is too short; out is then left unchanged.
pub fn unescape(payload: &[u8], out: &mut [u8]) -> Result<Counts, Refused>
    ensures result_value { says result ≡ unescaping payload.now (length out.old) }
    ensures out_after { out.new
        ≡ leaves (says result) (payload_unescape payload.now) out.old }
{
    if MOST_UNESCAPED < payload.len() {
        return Err(Refusal::Length.at(0));
    }
    let dropped = judge(payload)?;
    let written = payload.len() - dropped;
    if out.len() < written {
        return Err(Refusal::NoRoom.at(0));
    }
    unescape_whole(payload, dropped, out);
    Ok(Counts { written, dropped })
}
