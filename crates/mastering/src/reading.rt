// Reading the content.
ghost use Rattle.refusal.specs.Number.{says};
ghost use Rattle.std.specs.Prelude.{◌≡◌};
ghost use Rattle.mastering.specs.Content.{body_wrong};
ghost use Rattle.mastering.specs.Figures.{reading};

use crate::figures::{Figures, figures_of};
use crate::numbers::numbers_of;
use lists::rest;
use obu::read_leb128;
use refusal::{Refusal, Refused};

// metadata_type of metadata_hdr_mdcv.
const MDCV: u64 = 2;

// The bytes of the ten numbers and the trailing bits.
const BODY: usize = 25;

// Returns whether something else than the ten numbers and the trailing bits stands behind the type.
#[tactic(auto, unfolding(crate::specs::Content::body_wrong))]
fn body_wrong(s: &[u8]) -> bool
    ensures { result ≡ body_wrong s.now }
{
    s.len() != BODY || s[24] != 0x80
}

// Returns the figures of the content; 48.
pub fn read(content: &[u8]) -> Result<Figures, Refused>
    ensures { says result ≡ reading content.now }
{
    let none = Err(Refusal::MasteringForm.at(0));
    let Some(leb) = read_leb128(content) else {
        return none;
    };
    if leb.value != MDCV {
        return none;
    }
    let body = rest(content, leb.width);
    if body_wrong(body) {
        return none;
    }
    Ok(figures_of(numbers_of(body)))
}
