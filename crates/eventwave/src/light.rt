//! Which pieces of a script only one worker could ever run at a time.

ghost use Rattle.std.specs.Prelude.{◌≡◌};
ghost use Rattle.wave_effects.specs.Plans.{plan_of};
ghost use Rattle.eventwave.specs.inner.Light.{are_single, has_spawn, has_spawns, is_light, is_no_move, is_single, is_spawn, never_has_two};

use service_code::{Instr, Program};
use wave_base::{Line, Seq};
use wave_effects::Plan;

/// Whether a piece is light: no more than one worker could ever run at a time. No gate may hold a worker, and either no segment takes long, so that no
/// other worker is called; or no batch has two events, and none creates another. The latter counts only once a piece has begun, since the lines of a light
/// piece are written at its end, and those of a first one that takes long while it runs.
pub fn is_light(plan: &Plan, may_hold: bool, begun: bool) -> bool
    ensures { result ≡ is_light may_hold begun (plan_of plan.now) }
{
    !may_hold && (!plan.has_loops() || begun && never_has_two(plan))
}

// Whether no two events are ever under way: no batch has two, and none creates another.
fn never_has_two(plan: &Plan) -> bool
    ensures { result ≡ never_has_two (plan_of plan.now) }
{
    are_single(plan.script.batches.as_slice()) && !has_spawns(plan.program.program())
}

// Whether each batch has one line at most that is no move.
fn are_single(batches: &[Seq<Line>]) -> bool
    ensures { result ≡ are_single batches.now }
{
    for batch in batches {
        if !is_single(batch.as_slice()) {
            return false;
        }
    }
    true
}

fn is_single(batch: &[Line]) -> bool
    ensures { result ≡ is_single batch.now }
{
    batch.iter().filter(|line| is_no_move(line)).count() <= 1
}

fn is_no_move(line: &Line) -> bool
    ensures { result ≡ is_no_move line.now }
{
    !matches!(line, Line::Move(_, _))
}

// Whether some function creates events.
fn has_spawns(program: &Program) -> bool
    ensures { result ≡ has_spawns program.now }
{
    for function in program.functions.as_slice() {
        if has_spawn(function.code.as_slice()) {
            return true;
        }
    }
    false
}

fn has_spawn(code: &[Instr]) -> bool
    ensures { result ≡ has_spawn code.now }
{
    for instr in code {
        if is_spawn(*instr) {
            return true;
        }
    }
    false
}

fn is_spawn(instr: Instr) -> bool
    ensures { result ≡ is_spawn instr }
{
    matches!(instr, Instr::Spawn(_))
}
