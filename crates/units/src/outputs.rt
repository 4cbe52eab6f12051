// The outputs: a unit's length and times, zeros.
ghost use Rattle.std.specs.Prelude.{◌≡◌, ◌+◌, ◌*◌, ◌<◌, length, set, slice_index};
ghost use Rattle.lists.specs.Lists.{zeros};
ghost use Rattle.segment_rules.specs.Check.{pts_and_dts};

use pes::Times;

// The number that stands for a time where a unit has none: 2^33, which no time of 33 bits equals.
// Stays: the C interface hands the times out as numbers, and `pts_and_dts` (segment_rules) says that this is the one.
const NO_TIME: u64 = 8589934592;

// Returns the numbers of these times, PTS first.
pub(crate) fn time_pair(times: Option<Times>) -> [u64; 2]
    ensures { result ≡ pts_and_dts times }
{
    match times {
        None => [NO_TIME, NO_TIME],
        Some(times) => [times.pts.0, times.dts.0],
    }
}

// Writes a unit's length and its times, PTS first, in the unit's place.
pub(crate) fn put_unit(
    unit: usize,
    bytes: usize,
    pair: [u64; 2],
    lens: &mut [usize],
    times: &mut [u64],
)
    requires { (unit < length lens.old) × (2 * unit + 1 < length times.old) }
    ensures lens_after { lens.new ≡ set lens.old unit bytes }
    ensures times_after { times.new
        ≡ set (set times.old (2 * unit) (slice_index pair 0)) (2 * unit + 1) (slice_index pair 1) }
{
    lens[unit] = bytes;
    let at = 2 * unit;
    times[at] = pair[0];
    times[at + 1] = pair[1];
}

// Writes zeros throughout the three outputs and the list of first packets.
pub fn clear(out: &mut [u8], lens: &mut [usize], times: &mut [u64], firsts: &mut [usize])
    ensures out_after { out.new ≡ zeros out.old }
    ensures lens_after { lens.new ≡ zeros lens.old }
    ensures times_after { times.new ≡ zeros times.old }
    ensures firsts_after { firsts.new ≡ zeros firsts.old }
{
    out.fill(0);
    lens.fill(0);
    times.fill(0);
    firsts.fill(0);
}
