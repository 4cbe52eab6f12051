// Reading and writing the mastering figures of metadata_hdr_mdcv.
ghost use Rattle.std.specs.Prelude.{◌≡◌};
ghost use Rattle.refusal.specs.Number.{says};
ghost use Rattle.answers.specs.Metadata.{figure_list, mastering_answer, steps_from};

use mastering::{Figures, Steps};
use refusal::Refused;

// The ten figures, in the content's order.
#[repr(C)]
#[derive(Drop)]
pub struct MasteringAnswer {
    pub number: u64,
    pub place: u64,
    // Stays: the C interface has this array (av1ts_mastering in include/av1ts.h).
    pub figure: [f64; 10],
}

// The ten figures, in the content's order.
fn figure_list(figures: Figures) -> [f64; 10]
    ensures { result ≡ figure_list figures }
{
    [
        figures.red_x,
        figures.red_y,
        figures.green_x,
        figures.green_y,
        figures.blue_x,
        figures.blue_y,
        figures.white_x,
        figures.white_y,
        figures.luminance_max,
        figures.luminance_min,
    ]
}

// The figures, or the refusal.
impl From<Result<Figures, Refused>> for MasteringAnswer {
    ghost from_gives = { λ read answer. answer ≡ mastering_answer (says read) };

    fn from(read: Result<Figures, Refused>) -> MasteringAnswer {
        match read {
            Ok(figures) => MasteringAnswer {
                number: 0,
                place: 0,
                figure: figure_list(figures),
            },
            Err(refused) => MasteringAnswer {
                number: refused.why.number() as u64,
                place: refused.place as u64,
                figure: [0.0; 10],
            },
        }
    }
}

// The whole numbers of ST 2086, from an array of them in the content's order.
// Stays: docs/PROMISES.md names it; `From` could stand beside `Steps` alone, and this order is the C interface's.
pub fn steps_from(value: &[u64; 10]) -> Steps
    ensures { result ≡ steps_from value.now }
{
    Steps {
        red_x: value[0],
        red_y: value[1],
        green_x: value[2],
        green_y: value[3],
        blue_x: value[4],
        blue_y: value[5],
        white_x: value[6],
        white_y: value[7],
        luminance_max: value[8],
        luminance_min: value[9],
    }
}
