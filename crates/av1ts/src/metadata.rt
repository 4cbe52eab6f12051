// Reading and writing the mastering figures of metadata_hdr_mdcv.
ghost use Rattle.std.specs.Prelude.{◌≡◌, length};
ghost use Rattle.refusal.specs.Verdict.{leaves};
ghost use Rattle.mastering.specs.Content.{content_of};
ghost use Rattle.mastering.specs.Figures.{reading};
ghost use Rattle.mastering.specs.Steps.{numbers_from, writing};
ghost use Rattle.answers.specs.Answers.{count_answer};
ghost use Rattle.answers.specs.Metadata.{mastering_answer, steps_from};

use answers::{Answer, MasteringAnswer, steps_from};

#[unsafe(no_mangle)]
pub extern "C" fn av1ts_read_mastering(content: &[u8]) -> MasteringAnswer
    ensures { result ≡ mastering_answer (reading content.now) }
{
    mastering::read(content).into()
}

// Stays: the C interface lends this array (include/av1ts.h).
#[unsafe(no_mangle)]
pub extern "C" fn av1ts_write_mastering(value: &[u64; 10], out: &mut [u8]) -> Answer
    ensures value { result ≡ count_answer (writing (steps_from value.now) (length out.old)) }
    ensures out_after { out.new
        ≡ leaves (writing (steps_from value.now) (length out.old))
        (content_of (numbers_from (steps_from value.now))) out.old }
{
    mastering::write(steps_from(value), out).into()
}
