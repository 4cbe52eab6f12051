// The figures, as doubles.
ghost use Rattle.std.specs.Prelude.{◌≡◌};
ghost use Rattle.mastering.specs.Figures.{chromaticity_figure, maximum_figure, minimum_figure, figures_of};

use crate::numbers::Numbers;

// In the content's order.
#[derive(Drop)]
pub struct Figures {
    pub red_x: f64,
    pub red_y: f64,
    pub green_x: f64,
    pub green_y: f64,
    pub blue_x: f64,
    pub blue_y: f64,
    pub white_x: f64,
    pub white_y: f64,
    pub luminance_max: f64,
    pub luminance_min: f64,
}

// Returns the figure of a chromaticity, which has 16 bits behind the point.
fn chromaticity(n: u16) -> f64
    ensures { result ≡ chromaticity_figure n }
{
    n as f64 / 65536.0
}

// Returns the figure of the maximum luminance, which has 8.
fn maximum(n: u32) -> f64
    ensures { result ≡ maximum_figure n }
{
    n as f64 / 256.0
}

// Returns the figure of the minimum luminance, which has 14.
fn minimum(n: u32) -> f64
    ensures { result ≡ minimum_figure n }
{
    n as f64 / 16384.0
}

// Returns the figures of these numbers.
pub(crate) fn figures_of(n: Numbers) -> Figures
    ensures { result ≡ figures_of n }
{
    Figures {
        red_x: chromaticity(n.red_x),
        red_y: chromaticity(n.red_y),
        green_x: chromaticity(n.green_x),
        green_y: chromaticity(n.green_y),
        blue_x: chromaticity(n.blue_x),
        blue_y: chromaticity(n.blue_y),
        white_x: chromaticity(n.white_x),
        white_y: chromaticity(n.white_y),
        luminance_max: maximum(n.luminance_max),
        luminance_min: minimum(n.luminance_min),
    }
}
