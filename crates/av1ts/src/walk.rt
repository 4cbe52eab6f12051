// The walk over a carried unit, a step a call.
ghost use Rattle.std.specs.Prelude.{◌≡◌};
ghost use Rattle.tsobu.specs.Walk.{starting, stepping};
ghost use Rattle.answers.specs.Answers.{start_answer, step_answer};

use answers::WalkStep;

#[unsafe(no_mangle)]
pub extern "C" fn av1ts_walk_start(unit: &[u8]) -> WalkStep
    ensures { result ≡ start_answer (starting unit.now) }
{
    tsobu::start(unit).into()
}

#[unsafe(no_mangle)]
pub extern "C" fn av1ts_walk_step(unit: &[u8], at: usize) -> WalkStep
    ensures { result ≡ step_answer at (stepping unit.now at) }
{
    answers::step_answer(at, tsobu::step_at(unit, at))
}
