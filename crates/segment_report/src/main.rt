// Checks a segment from standard input and prints what it carries, or the refusal. An input of more than 16,384 packets
// is not checked, and the program says so: its buffers stand on the stack.
#![tactic(auto)]

ghost use Rattle.std.specs.Prelude.{◌≡◌, length};

use input::read_full;
use segment::Summary;
use std::io;

// The most units that a segment has.
const MOST_UNITS: usize = 1024;

// Two times for each unit.
const MOST_TIMES: usize = 2048;

// The most bytes of a segment that is checked: 16,384 packets.
const MOST_BYTES: usize = 3080192;

// One byte more, so that a longer input is seen to be longer.
const INPUT_ROOM: usize = 3080193;

// Returns an array of N zeros.
fn zeros<const N: usize>() -> [u8; N]
    ensures { length result ≡ N }
{
    [0; N]
}

// Prints the program, the PID of its AV1 stream, how many units there are, and the packets of each kind.
// Stays: `Display` for `Summary` could stand in segment alone, and these words are this program's.
fn print_accepted(rt: &impl Print, summary: Summary) -> io::Result<()> {
    let totals = summary.totals;
    println!(rt;
        "program {} pid {} units {}",
        summary.program, summary.pid, summary.units
    )?;
    print!(rt;
        "null {} section {} av1 {}",
        totals.null, totals.section, totals.av1
    )?;
    println!(rt;
        " other_listed {} unlisted {}",
        totals.other_listed, totals.unlisted
    )
}

// Prints the length and the times of each of the first `units` units. The times stand in pairs.
// Stays: the lengths and times are slices of numbers; a struct around them, for `Display` alone, would be longer.
fn print_units(rt: &impl Print, units: usize, lens: &[usize], times: &[u64]) -> io::Result<()> {
    for (index, (length, pair)) in lens
        .iter()
        .zip(times.chunks_exact(2))
        .take(units)
        .enumerate()
    {
        println!(rt;
            "unit {index} bytes {length} pts {} dts {}",
            pair[0], pair[1]
        )?;
    }
    Ok(())
}

fn main(rt: HostRuntime) -> io::Result<()> {
    let mut bytes: [u8; INPUT_ROOM] = zeros();
    let n = read_full(&mut rt.stdin().lock(), &mut bytes)?;
    if MOST_BYTES < n {
        return println!(rt; "not checked: the input is longer than {MOST_BYTES} bytes");
    }
    let mut out: [u8; MOST_BYTES] = zeros();
    let mut lens = [0usize; MOST_UNITS];
    let mut times = [0u64; MOST_TIMES];
    match segment::check(0, &bytes[..n], &mut out, &mut lens, &mut times, &mut []) {
        Err(refused) => println!(rt; "refused {refused}"),
        Ok(accepted) => {
            print_accepted(&rt, accepted.summary)?;
            print_units(&rt, accepted.summary.units, &lens, &times)
        }
    }
}
