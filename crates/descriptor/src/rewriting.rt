// Rewriting the video descriptor of an old recording.
ghost use Rattle.refusal.specs.Number.{says};
ghost use Rattle.std.specs.Prelude.{◌≡◌, length};
ghost use Rattle.refusal.specs.Verdict.{leaves};
ghost use Rattle.descriptor.specs.Descriptor.{fields_of, descriptor_of, rewriting};

use crate::reading::read;
use crate::writing::write;
use refusal::Refused;

// How many bytes were written, and whether the descriptor had a delay, which is not written.
#[derive(Drop)]
pub struct Outcome {
    pub bytes: usize,
    pub dropped_delay: bool,
}

// Writes the descriptor without its delay over the front of `out`. Returns refusal 40, then 8; `out` is then left
// unchanged.
pub fn rewrite(bytes: &[u8], out: &mut [u8]) -> Result<Outcome, Refused>
    ensures result_value { says result ≡ rewriting bytes.now (length out.old) }
    ensures out_after { out.new
        ≡ leaves (says result) (descriptor_of (fields_of bytes.now)) out.old }
{
    let video = read(bytes)?;
    let bytes = write(video.fields, out)?;
    Ok(Outcome {
        bytes,
        dropped_delay: video.delay.is_some(),
    })
}
