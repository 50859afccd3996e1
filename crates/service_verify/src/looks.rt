//! Which events after their last Go only look.

ghost use Rattle.std.specs.Prelude.{◌≡◌, ◌≤◌, length};
ghost use Rattle.service_verify.specs.Looks.{is_quiet, is_go, stays_behind, after_go};
ghost use Rattle.service_verify.specs.inner.Surveys.{says, looks_after, looks_by};

use service_code::{Function, Instr};

/// From which place on an event's function only looks, if it does so after its last Go. `quiet` says which functions of lower
/// numbers are quiet.
pub fn looks_from(function: &Function, quiet: &[bool]) -> Option<usize>
    ensures { result ≡ looks_by quiet.now function.now }
{
    let code = function.code.as_slice();
    let start = after_go(code);
    if function.is_event && only_looks(&code[start..], start, quiet) {
        Some(start)
    } else {
        None
    }
}

/// All of a code is quiet, and no jump of it goes before this place.
pub fn only_looks(code: &[Instr], start: usize, quiet: &[bool]) -> bool
    ensures { result ≡ looks_after quiet.now start code.now }
{
    for instr in code {
        if !is_quiet(*instr, quiet) || !stays_behind(start, *instr) {
            return false;
        }
    }
    true
}

// The place after the last Go.
fn after_go(code: &[Instr]) -> usize
    ensures after { result ≡ after_go code.now }
    ensures within { result ≤ length code.now }
{
    let mut after = 0;
    for (n, instr) in code.iter().enumerate() {
        if is_go(*instr) {
            after = n + 1;
        }
    }
    after
}

fn is_go(instr: Instr) -> bool
    ensures { result ≡ is_go instr }
{
    matches!(instr, Instr::Go(_))
}

// It changes no field and calls into no child.
fn is_quiet(instr: Instr, quiet: &[bool]) -> bool
    ensures { result ≡ is_quiet (says quiet.now) instr }
{
    match instr {
        Instr::SetField(_) | Instr::PutField(_) | Instr::CutField(_) | Instr::CallDown(_, _) => {
            false
        }
        Instr::Call(g) => match quiet.get(g as usize) {
            Some(quiet) => *quiet,
            None => false,
        },
        _ => true,
    }
}

// It is no jump, or one to this place or behind it.
fn stays_behind(start: usize, instr: Instr) -> bool
    ensures { result ≡ stays_behind start instr }
{
    match instr {
        Instr::Jump(to) | Instr::JumpFalse(to) => start <= to as usize,
        _ => true,
    }
}
