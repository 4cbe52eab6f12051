// Escaping and unescaping of one OBU.
ghost use Rattle.std.specs.Prelude.{◌≡◌, length};
ghost use Rattle.refusal.specs.Verdict.{leaves};
ghost use Rattle.emulation.specs.Payload.{escape, unescape};
ghost use Rattle.emulation.specs.Answer.{escaping, unescaping};
ghost use Rattle.answers.specs.Answers.{count_answer, unescape_answer};

use answers::Answer;

#[unsafe(no_mangle)]
pub extern "C" fn av1ts_escape(obu: &[u8], out: &mut [u8]) -> Answer
    ensures value { result ≡ count_answer (escaping obu.now (length out.old)) }
    ensures out_after { out.new
        ≡ leaves (escaping obu.now (length out.old)) (escape obu.now)
        out.old }
{
    escaping::escape(obu, out).into()
}

#[unsafe(no_mangle)]
pub extern "C" fn av1ts_unescape(payload: &[u8], out: &mut [u8]) -> Answer
    ensures value { result ≡ unescape_answer (unescaping payload.now (length out.old)) }
    ensures out_after { out.new
        ≡ leaves (unescaping payload.now (length out.old)) (unescape payload.now)
        out.old }
{
    emulation::unescape(payload, out).into()
}
