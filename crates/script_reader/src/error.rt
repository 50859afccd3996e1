//! Why a text is no script of a service.

ghost use Rattle.std.specs.Prelude.{◌≡◌};
ghost use Rattle.script_reader.specs.Scripts.{error_at};

use thiserror::Error;
use wave_base::OutOfMemory;

/// Why a script line is refused.
#[derive(Clone, Copy, Debug, PartialEq, Eq)]
pub enum Fault {
    /// The line has none of the forms.
    UnknownCommand,
    /// No event has that name.
    UnknownEvent,
    /// The event has more or fewer parameters.
    ArgCount,
    /// An argument is not of its parameter's kind, does not fit 64 bits, or is too long a text.
    ArgType,
    /// The path is none of the service.
    BadPath,
    /// The number of hosts is not from 1 to 8, a host is not below it, or a policy names one host twice.
    HostRange,
    /// `hosts` behind an event line, a `settle` or another `hosts`.
    HostsLate,
    /// An event line too many.
    TooMany,
    /// A policy behind an event line of its batch.
    PolicyLate,
    /// The number of moves that a policy may make is not from 1 to 4,000.
    CountRange,
}

/// The first line of a script that is refused, from 1, and why.
#[derive(Clone, Copy, Debug, PartialEq, Eq, Error)]
pub enum ScriptError {
    /// The line has none of the forms.
    #[error("line {line} has none of the forms")]
    UnknownCommand { line: u32 },
    /// No event has that name.
    #[error("line {line}: no event has that name")]
    UnknownEvent { line: u32 },
    /// The event has more or fewer parameters.
    #[error("line {line}: more or fewer arguments than parameters")]
    ArgCount { line: u32 },
    /// An argument is not of its parameter's kind, does not fit 64 bits, or is too long a text.
    #[error("line {line}: an argument that is none of its parameter")]
    ArgType { line: u32 },
    /// A class is not a child class of the one before it, a key does not fit 64 bits, or there are too many steps.
    #[error("line {line}: no path of the service")]
    BadPath { line: u32 },
    /// The number of hosts is not from 1 to 8, a host is not below it, or a policy names one host twice.
    #[error("line {line}: a host or a number of hosts that is out of range")]
    HostRange { line: u32 },
    /// `hosts` behind an event line, a `settle` or another `hosts`.
    #[error("line {line}: the number of hosts comes too late")]
    HostsLate { line: u32 },
    /// An event line too many.
    #[error("line {line}: an event line too many")]
    TooMany { line: u32 },
    /// A policy behind an event line of its batch.
    #[error("line {line}: the policy does not come first in its batch")]
    PolicyLate { line: u32 },
    /// The number of moves that a policy may make is not from 1 to 4,000.
    #[error("line {line}: a number of moves that is out of range")]
    CountRange { line: u32 },
    /// Memory was wanting, and nothing is said of the text.
    #[error("out of memory")]
    OutOfMemory(OutOfMemory),
}

/// The error of a fault on a line.
pub(crate) fn error_at(fault: Fault, line: u32) -> ScriptError
    ensures { result ≡ error_at fault line }
{
    match fault {
        Fault::UnknownCommand => ScriptError::UnknownCommand { line },
        Fault::UnknownEvent => ScriptError::UnknownEvent { line },
        Fault::ArgCount => ScriptError::ArgCount { line },
        Fault::ArgType => ScriptError::ArgType { line },
        Fault::BadPath => ScriptError::BadPath { line },
        Fault::HostRange => ScriptError::HostRange { line },
        Fault::HostsLate => ScriptError::HostsLate { line },
        Fault::TooMany => ScriptError::TooMany { line },
        Fault::PolicyLate => ScriptError::PolicyLate { line },
        Fault::CountRange => ScriptError::CountRange { line },
    }
}

impl From<OutOfMemory> for ScriptError {
    ghost use Rattle.std.specs.Prelude.{◌≡◌};
    ghost use Rattle.script_reader.specs.declared.error.ScriptError.TheVariants as error;

    ghost from_gives = { λ refused e. e ≡ error.OutOfMemory refused };

    fn from(refused: OutOfMemory) -> ScriptError {
        ScriptError::OutOfMemory(refused)
    }
}
