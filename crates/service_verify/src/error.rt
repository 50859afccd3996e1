//! The rules of the verifier, and which of them a program breaks.

use thiserror::Error;
use wave_base::OutOfMemory;

/// A rule of the verifier.
#[derive(Clone, Copy, Debug, PartialEq, Eq)]
pub enum Rule {
    /// The stack falls below what is taken, passes the function's height, isn't empty where the function ends, or has
    /// another height at a later arrival.
    Stack,
    /// A kind or a class is not the one that is wanted, or not the one of an earlier arrival.
    Kind,
    /// A target outside the code, an instruction that no earlier one reaches, or a way off the end.
    Jump,
    /// A function, event or child class that is not there, a call of what must not be called, or an end of another kind
    /// of function.
    Call,
    /// A local, field, text, level or operator that is not there.
    Field,
}

/// Why a program is refused: the rule that an instruction breaks, with the numbers of its function and its own.
#[derive(Clone, Copy, Debug, PartialEq, Eq, Error)]
pub enum VerifyError {
    /// The rule on the stack's height.
    #[error("function {function}, instruction {instruction}: the stack's height")]
    Stack { function: u16, instruction: u16 },
    /// The rule on kinds and classes.
    #[error("function {function}, instruction {instruction}: a kind or a class")]
    Kind { function: u16, instruction: u16 },
    /// The rule on targets and on what is reached.
    #[error("function {function}, instruction {instruction}: a target or a place that nothing reaches")]
    Jump { function: u16, instruction: u16 },
    /// The rule on calls and ends.
    #[error("function {function}, instruction {instruction}: a call or an end")]
    Call { function: u16, instruction: u16 },
    /// The rule on what instructions name by number.
    #[error("function {function}, instruction {instruction}: a local, field, text, level or operator")]
    Field { function: u16, instruction: u16 },
    /// Memory was wanting, and nothing is said of the program.
    #[error("out of memory")]
    OutOfMemory(OutOfMemory),
}

impl Rule {
    ghost use Rattle.service_verify.specs.Faults.{Names, IsNamed};

    /// The refusal of an instruction that breaks this rule.
    pub fn broken_at(self, function: u16, instruction: u16) -> VerifyError
        ensures { Names (IsNamed self function instruction) result }
    {
        match self {
            Rule::Stack => VerifyError::Stack {
                function,
                instruction,
            },
            Rule::Kind => VerifyError::Kind {
                function,
                instruction,
            },
            Rule::Jump => VerifyError::Jump {
                function,
                instruction,
            },
            Rule::Call => VerifyError::Call {
                function,
                instruction,
            },
            Rule::Field => VerifyError::Field {
                function,
                instruction,
            },
        }
    }
}

/// A rule that is broken, or want of memory.
#[derive(Clone, Copy, Debug)]
pub enum Refusal {
    /// The rule that an instruction breaks.
    Broken(Rule),
    /// Memory was wanting.
    OutOfMemory(OutOfMemory),
}

impl Refusal {
    ghost use Rattle.service_verify.specs.Faults.{Refuses};

    /// The refusal of an instruction.
    pub fn at(self, function: u16, instruction: u16) -> VerifyError
        ensures { Refuses self function instruction result }
    {
        match self {
            Refusal::Broken(rule) => rule.broken_at(function, instruction),
            Refusal::OutOfMemory(refused) => VerifyError::OutOfMemory(refused),
        }
    }
}

impl From<Rule> for Refusal {
    ghost use Rattle.std.specs.Prelude.{◌≡◌};
    ghost use Rattle.service_verify.specs.declared.error.Refusal.TheVariants.{Broken};

    ghost from_gives = { λ rule r. r ≡ Broken rule };

    fn from(rule: Rule) -> Refusal {
        Refusal::Broken(rule)
    }
}

impl From<OutOfMemory> for Refusal {
    ghost use Rattle.std.specs.Prelude.{◌≡◌};
    ghost use Rattle.service_verify.specs.declared.error.Refusal.TheVariants.{OutOfMemory};

    ghost from_gives = { λ refused r. r ≡ OutOfMemory refused };

    fn from(refused: OutOfMemory) -> Refusal {
        Refusal::OutOfMemory(refused)
    }
}

impl From<OutOfMemory> for VerifyError {
    ghost use Rattle.std.specs.Prelude.{◌≡◌};
    ghost use Rattle.service_verify.specs.declared.error.VerifyError.TheVariants.{OutOfMemory};

    ghost from_gives = { λ refused r. r ≡ OutOfMemory refused };

    fn from(refused: OutOfMemory) -> VerifyError {
        VerifyError::OutOfMemory(refused)
    }
}
