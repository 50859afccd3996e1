//! Whether a segment of a plan may take any number of ticks.

ghost use Rattle.std.specs.Prelude.{◌≡◌};
ghost use Rattle.wave_effects.specs.Loops.{has_loop, has_loops, jumps_back};

use crate::plan::Plan;
use service_code::Instr;

impl Plan {
    /// Whether some method or event of the service has a loop: a jump to its own place or before it. Where none has, a segment takes no more ticks
    /// than the code that it calls is long.
    pub fn has_loops(&self) -> bool
        ensures { result ≡ has_loops self.now.program }
    {
        for function in self.program.program().functions.as_slice() {
            if has_loop(function.code.as_slice()) {
                return true;
            }
        }
        false
    }
}

fn has_loop(code: &[Instr]) -> bool
    ensures { result ≡ has_loop 0 code.now }
{
    for (place, instr) in code.iter().enumerate() {
        if jumps_back(place, *instr) {
            return true;
        }
    }
    false
}

fn jumps_back(place: usize, instr: Instr) -> bool
    ensures { result ≡ jumps_back place instr }
{
    match instr {
        Instr::Jump(to) | Instr::JumpFalse(to) => to as usize <= place,
        _ => false,
    }
}
