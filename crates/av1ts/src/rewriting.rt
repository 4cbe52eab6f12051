// Rewriting the AV1 video descriptor of an old recording.
ghost use Rattle.std.specs.Prelude.{◌≡◌, length};
ghost use Rattle.refusal.specs.Verdict.{leaves};
ghost use Rattle.descriptor.specs.Descriptor.{fields_of, descriptor_of, rewriting};
ghost use Rattle.answers.specs.Rewriting.{rewrite_answer};

use answers::RewriteAnswer;

#[unsafe(no_mangle)]
pub extern "C" fn av1ts_rewrite_descriptor(bytes: &[u8], out: &mut [u8]) -> RewriteAnswer
    ensures value { result ≡ rewrite_answer (rewriting bytes.now (length out.old)) }
    ensures out_after { out.new
        ≡ leaves (rewriting bytes.now (length out.old))
        (descriptor_of (fields_of bytes.now)) out.old }
{
    descriptor::rewrite(bytes, out).into()
}
