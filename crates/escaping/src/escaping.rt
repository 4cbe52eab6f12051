// Escaping one OBU.
ghost use Rattle.refusal.specs.Number.{says};
ghost use Rattle.std.specs.Prelude.{◌≡◌, true, false, ◌+◌, ◌-◌, ◌≤◌, ◌<◌, leb, length, take, get_or};
ghost use Rattle.lists.specs.Lists.{over};
ghost use Rattle.refusal.specs.Verdict.{leaves};
ghost use Rattle.emulation.specs.Payload.{escape as payload_escape};
ghost use Rattle.emulation.specs.Payload.{inserted as payload_inserted};
ghost use Rattle.emulation.specs.Answer.{most_escaped, measuring, escaping};
ghost use Rattle.emulation.specs.Blocks.{block};
ghost use Rattle.emulation.specs.Parts.{Gives};
ghost use Rattle.escaping.specs.Parts.{laid, Lays, Inserts};

use crate::blocks::{before_critical, clean, critical_at, criticals, crowd, flags, single};
use emulation::{BLOCK, Reached, block_end, copy_block, places, wide};
use lists::{copy_rest, put};
use refusal::{Refusal, Refused};

// The most bytes that escaping takes.
const MOST_ESCAPED: usize = 1048576;

// So many places of a block at which a 03 may go in are too many to search for each of them.
const FEW: u8 = 3;

// The room for a block in which a 03 may go in behind each byte.
const DENSE: usize = 2 * BLOCK;

// Goes over the places of obu from i to end and counts the bytes that escaping puts there. `next` is the place to be
// looked at next; the one after a place at which a 03 is put is passed over. The reads go on by one place a turn and
// wait for no test.
fn inserted_places(obu: &[u8], i: usize, end: usize) -> Reached
    requires { (i < end) × (end + 2 ≤ length obu.now) }
    ensures inserts { Inserts obu.now i result.place result.count }
    ensures i_lt_place { i < result.place }
{
    let mut count: usize = 0;
    let mut next = i;
    for here in i..end {
        if here == next {
            if critical_at(obu, here) {
                count += 1;
                next += 2;
            } else {
                next += 1;
            }
        }
    }
    Reached { place: next, count }
}

// Returns how many bytes escaping puts into obu.
fn inserted(obu: &[u8]) -> usize
    ensures { result ≡ payload_inserted obu.now }
{
    let last = places(obu);
    let mut count: usize = 0;
    let mut i: usize = 0;
    // Stays: a turn takes a block, or as much as `inserted_places` did, so that no range gives the places.
    while i < last {
        if clean(obu, i) {
            i += BLOCK;
        } else if single(obu, i) {
            count += wide(criticals(obu, i));
            i += BLOCK;
        } else {
            let reached = inserted_places(obu, i, block_end(i, last));
            count += reached.count;
            i = reached.place;
        }
    }
    count
}

// Returns how many bytes the escaped form of obu has.
fn measure(obu: &[u8]) -> usize
    requires { length obu.now ≤ most_escaped }
    ensures { result ≡ length (payload_escape obu.now) }
{
    obu.len() + inserted(obu)
}

// Returns how many bytes the escaped form of obu has, or refusal 2 if obu is too long.
pub fn escaped_length(obu: &[u8]) -> Result<usize, Refused>
    ensures { says result ≡ measuring obu.now }
{
    if MOST_ESCAPED < obu.len() {
        return Err(Refusal::Length.at(0));
    }
    Ok(measure(obu))
}

// Writes the escaped form of obu between place i and place end into out from n on, as far as out has room. Returns the
// places that it comes to in obu and in out.
fn escape_places(obu: &[u8], i: usize, end: usize, out: &mut [u8], n: usize) -> Reached
    requires { (i < end) × (end + 2 ≤ length obu.now) × (n < length out.old) }
    ensures gives { Gives payload_escape obu.now i out.old n result.place result.count
        out.new }
    ensures n_lt_count { n < result.count }
{
    let mut count = n;
    let mut place = i;
    // Stays: a turn takes one byte or two, by what stands there, so that no range gives the places.
    while place < end {
        if out.len() <= count {
            return Reached { place, count };
        }
        if critical_at(obu, place) {
            count = put(out, count, 0);
            count = put(out, count, 0);
            count = put(out, count, 3);
            place += 2; // the 03 ends a run of zeros: what follows is looked at anew
        } else {
            count = put(out, count, obu[place]);
            place += 1;
        }
    }
    Reached { place, count }
}

// Returns true if a block of obu is left at i, with two bytes after it, and room for as much in an output of so many
// bytes from n on.
fn fits(size: usize, i: usize, room: usize, n: usize) -> bool
    requires { (i ≤ size) × (n ≤ room) }
    ensures block_bound { result ≡ true → (i + block + 2 ≤ size) × (n + block + 2 ≤ room) }
    ensures value { i + block + 2 ≤ size → n + block + 2 ≤ room → result ≡ true }
{
    BLOCK + 2 <= size - i && BLOCK + 2 <= room - n
}

// Writes the escaped form of obu from place i on to the next 03, or of a block, into out from n on. Returns the places
// that it comes to in obu and in out. The whole block is copied; what stands in it behind the 03 is written over by
// what comes next.
// Stays: the slices and the places are parameters: of references in a struct each contract must say which they are.
fn escape_next(obu: &[u8], i: usize, out: &mut [u8], n: usize) -> Reached
    requires { (i + block + 2 ≤ length obu.now) × (n + block + 2 ≤ length out.old) }
    ensures lays { Lays obu.now i out.old n result.place result.count out.new }
    ensures i_lt_place { (i < result.place) × (n < result.count) }
{
    let first = wide(before_critical(obu, i));
    copy_block(obu, i, out, n);
    if BLOCK - 2 < first {
        return Reached {
            place: i + first,
            count: n + first,
        };
    }
    out[n + first + 2] = 3;
    Reached {
        place: i + first + 2,
        count: n + first + 3,
    }
}

// Writes the escaped form of the block of obu at i into out from n on, from one 03 to the next, as far as blocks fit.
// Returns the places that it comes to in obu and in out.
fn escape_sparse(obu: &[u8], i: usize, out: &mut [u8], n: usize) -> Reached
    requires { (i + block + 2 ≤ length obu.now) × (n + block + 2 ≤ length out.old) }
    ensures lays { Lays obu.now i out.old n result.place result.count out.new }
    ensures n_lt_count { n < result.count }
{
    let end = i + BLOCK;
    let mut place = i;
    let mut count = n;
    // Stays: a turn takes as much as `escape_next` did, so that no range gives the places.
    while place < end {
        if !fits(obu.len(), place, out.len(), count) {
            return Reached { place, count };
        }
        let reached = escape_next(obu, place, out, count);
        place = reached.place;
        count = reached.count;
    }
    Reached { place, count }
}

// Where the output goes on behind two bytes, and what is left: 1 where a 03 is to go in behind the byte that comes
// next, or else 0.
#[derive(Drop)]
struct Laid {
    count: usize,
    last: usize,
}

// Stores the two bytes of obu at place into out from n on, each with a 03 behind it; where that is not to go in, what
// comes next is written over it. Behind the first it goes in where last is 1, behind the second where flag is 1 and
// last is not; one is left for the byte after them where next is 1 and none goes in behind the second. No store waits
// for a test, and each place takes one operation from what was left to what is left.
fn lay_pair(
    obu: &[u8],
    place: usize,
    out: &mut [u8],
    n: usize,
    last: usize,
    flag: u8,
    next: u8,
) -> Laid
    requires { (place + 1 < length obu.now) × (n + 3 < length out.old) × (last ≤ 1) × (flag ≤ 1) × (next ≤ 1) }
    ensures count_value { (result.count ≡ n + last + 1 + (flag - last) + 1) × (result.last ≡ next - (flag - last)) }
    ensures out_after { out.new ≡ laid (laid out.old n (get_or obu.now place 0))
        (n + last + 1) (get_or obu.now (place + 1) 0) }
{
    let second = n + last + 1;
    out[n] = obu[place];
    out[n + 1] = 3;
    out[second] = obu[place + 1];
    out[second + 1] = 3;
    let free = last | (1 - flag as usize); // 0 where one goes in behind the second
    Laid {
        count: second + 2 - free,
        last: free & next as usize,
    }
}

// Writes the escaped form of the block of obu at i into out from n on, two places a turn, at the same cost wherever a
// 03 goes in. Returns the places that it comes to in obu and in out.
fn escape_dense(obu: &[u8], i: usize, out: &mut [u8], n: usize) -> Reached
    requires { (i + block + 2 ≤ length obu.now) × (n + block + block ≤ length out.old) }
    ensures lays { Lays obu.now i out.old n result.place result.count out.new }
    ensures n_lt_count { n < result.count }
{
    let flags = flags(obu, i);
    let mut last: usize = 0;
    let mut count = n;
    for pair in 0..BLOCK / 2 {
        let j = 2 * pair;
        let laid = lay_pair(obu, i + j, out, count, last, flags[j], flags[j + 1]);
        count = laid.count;
        last = laid.last;
    }
    Reached {
        place: i + BLOCK - last, // if a 03 is left to go in, the place before it is taken again
        count: count - last,
    }
}

// Returns true if a block goes from one 03 to the next: few of its places may have one, or there is no room to go two
// places a turn.
fn spread(crowd: u8, room: usize) -> bool
    ensures { result ≡ false → block + block ≤ room }
{
    crowd < FEW || room < DENSE
}

// Writes the escaped form of the block of obu at i into out from n on. Returns the places that it comes to in obu and
// in out.
fn escape_block(obu: &[u8], i: usize, out: &mut [u8], n: usize) -> Reached
    requires { (i + block + 2 ≤ length obu.now) × (n + block + 2 ≤ length out.old) }
    ensures lays { Lays obu.now i out.old n result.place result.count out.new }
    ensures n_lt_count { n < result.count }
{
    let crowd = crowd(obu, i);
    if crowd == 0 {
        copy_block(obu, i, out, n);
        return Reached {
            place: i + BLOCK,
            count: n + BLOCK,
        };
    }
    if spread(crowd, out.len() - n) {
        return escape_sparse(obu, i, out, n);
    }
    escape_dense(obu, i, out, n)
}

// Returns true if the block of obu at i goes as a block: it fits, and there is room to go two places a turn, or few of
// its places may have a 03.
fn suits(obu: &[u8], i: usize, room: usize, n: usize) -> bool
    requires { (i ≤ length obu.now) × (n ≤ room) }
    ensures { result ≡ true → (i + block + 2 ≤ length obu.now) × (n + block + 2 ≤ room) }
{
    BLOCK + 2 <= obu.len() - i
        && (DENSE <= room - n || (BLOCK + 2 <= room - n && crowd(obu, i) < FEW))
}

// Writes the escaped form of obu over the front of out, as far as out has room. Returns how many bytes it wrote.
pub fn escape_prefix(obu: &[u8], out: &mut [u8]) -> usize
    ensures value { result ≡ length (take (length out.old) (payload_escape obu.now)) }
    ensures out_after { out.new
        ≡ over (take (length out.old) (payload_escape obu.now)) out.old }
{
    let last = places(obu);
    let mut n: usize = 0;
    let mut i: usize = 0;
    // Stays: a turn takes as much as `escape_block` or `escape_places` did, so that no range gives the places.
    while i < last {
        if out.len() <= n {
            return n;
        }
        if suits(obu, i, out.len(), n) {
            let reached = escape_block(obu, i, out, n);
            n = reached.count;
            i = reached.place;
        } else {
            let reached = escape_places(obu, i, block_end(i, last), out, n);
            n = reached.count;
            i = reached.place;
        }
    }
    copy_rest(obu, i, out, n)
}

// Returns true if the escaped form of obu has at most so many bytes. Each 03 takes two zeros before it, so that with
// room for half as many bytes more nothing has to be counted.
fn has_room(obu: &[u8], room: usize) -> bool
    requires { length obu.now ≤ most_escaped }
    ensures { result ≡ leb (length (payload_escape obu.now)) room }
{
    obu.len() + obu.len() / 2 <= room || measure(obu) <= room
}

// Writes the escaped form of obu over the front of out. Returns how many bytes it wrote, or refusal 2 if obu is too
// long, then 8 if out is too short; out is then left unchanged.
pub fn escape(obu: &[u8], out: &mut [u8]) -> Result<usize, Refused>
    ensures result_value { says result ≡ escaping obu.now (length out.old) }
    ensures out_after { out.new ≡ leaves (says result) (payload_escape obu.now) out.old }
{
    if MOST_ESCAPED < obu.len() {
        return Err(Refusal::Length.at(0));
    }
    if !has_room(obu, out.len()) {
        return Err(Refusal::NoRoom.at(0));
    }
    Ok(escape_prefix(obu, out))
}
