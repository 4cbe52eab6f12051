// The whole numbers of ST 2086, and the content's numbers that are nearest to them.
ghost use Rattle.std.specs.Prelude.{◌≡◌, false, ◌≤◌};
ghost use Rattle.mastering.specs.Steps.{chromaticity_steps, chromaticity_number, maximum_number, minimum_number};
ghost use Rattle.mastering.specs.Steps.{greatest, numbers_from, chromaticity_past, luminance_past, steps_past};

use crate::numbers::Numbers;

// In the content's order: chromaticities in steps of 0.00002, luminances in steps of 0.0001.
#[derive(Clone, Copy)]
pub struct Steps {
    pub red_x: u64,
    pub red_y: u64,
    pub green_x: u64,
    pub green_y: u64,
    pub blue_x: u64,
    pub blue_y: u64,
    pub white_x: u64,
    pub white_y: u64,
    pub luminance_max: u64,
    pub luminance_min: u64,
}

// The greatest chromaticity.
const MOST_CHROMATICITY: u64 = 50000;

// The greatest luminances that round to 32 bits.
const MOST_MAXIMUM: u64 = 167772159980;

const MOST_MINIMUM: u64 = 2621439999;

// Returns whether a chromaticity is past its bound.
fn chromaticity_past(s: Steps) -> bool
    ensures { result ≡ chromaticity_past s }
{
    [
        s.red_x, s.red_y, s.green_x, s.green_y, s.blue_x, s.blue_y, s.white_x, s.white_y,
    ]
    .iter()
    .any(|chromaticity| MOST_CHROMATICITY < *chromaticity)
}

// Returns whether a luminance rounds past 32 bits.
fn luminance_past(s: Steps) -> bool
    ensures { result ≡ luminance_past s }
{
    MOST_MAXIMUM < s.luminance_max || MOST_MINIMUM < s.luminance_min
}

// Returns whether one of the ten is past its bound.
#[tactic(auto, unfolding(crate::specs::Steps::steps_past))]
pub(crate) fn steps_past(s: Steps) -> bool
    ensures { result ≡ steps_past s }
{
    chromaticity_past(s) || luminance_past(s)
}

// Returns the nearest 65,536th; 65,535 for 50,000.
fn chromaticity(n: u64) -> u16
    requires { n ≤ chromaticity_steps }
    ensures { result ≡ chromaticity_number n }
{
    let nearest = (2 * (n * 65536) + 50000) / 100000;
    nearest.min(65535) as u16
}

// Returns the nearest 256th.
fn maximum(n: u64) -> u32
    requires { maximum_number n ≤ greatest }
    ensures { result ≡ maximum_number n }
{
    ((2 * (n * 256) + 10000) / 20000) as u32
}

// Returns the nearest 16,384th.
fn minimum(n: u64) -> u32
    requires { minimum_number n ≤ greatest }
    ensures { result ≡ minimum_number n }
{
    ((2 * (n * 16384) + 10000) / 20000) as u32
}

// Returns the content's numbers that are nearest to these.
pub(crate) fn numbers_from(s: Steps) -> Numbers
    requires { steps_past s ≡ false }
    ensures { result ≡ numbers_from s }
{
    Numbers {
        red_x: chromaticity(s.red_x),
        red_y: chromaticity(s.red_y),
        green_x: chromaticity(s.green_x),
        green_y: chromaticity(s.green_y),
        blue_x: chromaticity(s.blue_x),
        blue_y: chromaticity(s.blue_y),
        white_x: chromaticity(s.white_x),
        white_y: chromaticity(s.white_y),
        luminance_max: maximum(s.luminance_max),
        luminance_min: minimum(s.luminance_min),
    }
}
