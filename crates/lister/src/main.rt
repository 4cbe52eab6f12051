// The lister: reads a carried unit from standard input and prints what it carries, or the refusal (document 01, "The
// lister program").
#![tactic(auto)]

use input::read_full;
use std::io;
use std::io::Write;

// One byte more than the longest unit that is listed, so that a longer input is seen to be longer.
const UNIT_ROOM: usize = 65537;

// The most bytes that a text has, by what `list` promises.
const TEXT_ROOM: usize = 8385;

fn main(rt: HostRuntime) -> io::Result<()> {
    let mut unit = [0u8; UNIT_ROOM];
    let n = read_full(&mut rt.stdin().lock(), &mut unit)?;
    let mut text = [0u8; TEXT_ROOM];
    let Ok(count) = listing::list(&unit[..n], &mut text) else {
        return Ok(()); // not reached
    };
    io::writer(&rt).write_all(&text[..count])
}
