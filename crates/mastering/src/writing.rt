// Writing the content.
ghost use Rattle.refusal.specs.Number.{says};
ghost use Rattle.std.specs.Prelude.{◌≡◌, length};
ghost use Rattle.refusal.specs.Verdict.{leaves};
ghost use Rattle.mastering.specs.Content.{content_of};
ghost use Rattle.mastering.specs.Steps.{numbers_from, writing};

use crate::numbers::Numbers;
use crate::steps::{Steps, numbers_from, steps_past};
use lists::copy;
use refusal::{Refusal, Refused};

// The bytes of the content.
const CONTENT: usize = 26;

// Returns the content of these numbers.
// Stays: one array expression has all bytes in order; with `to_be_bytes` ten arrays would be named or copied first.
fn content_of(n: Numbers) -> [u8; 26]
    ensures { result ≡ content_of n }
{
    [
        2,
        (n.red_x / 256 % 256) as u8,
        (n.red_x % 256) as u8,
        (n.red_y / 256 % 256) as u8,
        (n.red_y % 256) as u8,
        (n.green_x / 256 % 256) as u8,
        (n.green_x % 256) as u8,
        (n.green_y / 256 % 256) as u8,
        (n.green_y % 256) as u8,
        (n.blue_x / 256 % 256) as u8,
        (n.blue_x % 256) as u8,
        (n.blue_y / 256 % 256) as u8,
        (n.blue_y % 256) as u8,
        (n.white_x / 256 % 256) as u8,
        (n.white_x % 256) as u8,
        (n.white_y / 256 % 256) as u8,
        (n.white_y % 256) as u8,
        (n.luminance_max / 16777216 % 256) as u8,
        (n.luminance_max / 65536 % 256) as u8,
        (n.luminance_max / 256 % 256) as u8,
        (n.luminance_max % 256) as u8,
        (n.luminance_min / 16777216 % 256) as u8,
        (n.luminance_min / 65536 % 256) as u8,
        (n.luminance_min / 256 % 256) as u8,
        (n.luminance_min % 256) as u8,
        0x80,
    ]
}

// Writes the content that is nearest to these numbers over the front of `out`; 49, then 8, and `out` is left unchanged.
pub fn write(steps: Steps, out: &mut [u8]) -> Result<usize, Refused>
    ensures result_value { says result ≡ writing steps (length out.old) }
    ensures out_after { out.new ≡ leaves (says result) (content_of (numbers_from steps)) out.old }
{
    if steps_past(steps) {
        return Err(Refusal::MasteringBounds.at(0));
    }
    if out.len() < CONTENT {
        return Err(Refusal::NoRoom.at(0));
    }
    let content = content_of(numbers_from(steps));
    copy(&content, out);
    Ok(CONTENT)
}
