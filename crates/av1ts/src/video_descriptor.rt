// Reading and writing the AV1 video descriptor.
ghost use Rattle.std.specs.Prelude.{◌≡◌, length};
ghost use Rattle.refusal.specs.Verdict.{leaves};
ghost use Rattle.descriptor.specs.Descriptor.{descriptor_of, reading, writing};
ghost use Rattle.answers.specs.Answers.{count_answer, descriptor_answer, fields_from};

use answers::{Answer, VideoDescriptor, fields_from};

#[unsafe(no_mangle)]
pub extern "C" fn av1ts_read_descriptor(bytes: &[u8]) -> VideoDescriptor
    ensures { result ≡ descriptor_answer (reading bytes.now) }
{
    descriptor::read(bytes).into()
}

// Stays: the C interface lends this array (include/av1ts.h).
#[unsafe(no_mangle)]
pub extern "C" fn av1ts_write_descriptor(field: &[u8; 10], out: &mut [u8]) -> Answer
    ensures value { result ≡ count_answer (writing (fields_from field.now) (length out.old)) }
    ensures out_after { out.new
        ≡ leaves (writing (fields_from field.now) (length out.old))
        (descriptor_of (fields_from field.now)) out.old }
{
    descriptor::write(fields_from(field), out).into()
}
