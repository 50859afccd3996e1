//! What the words of a command line ask for.

ghost use Rattle.std.specs.Prelude.{◌≡◌};
ghost use Rattle.command_words.specs.Inputs.{input_bytes, is_free, reads_input, runs_workers};

use wave_base::{INPUT_BYTES, LONG_INPUT_BYTES};

/// Whether the listing ends with the hosts of the contexts.
#[derive(Clone, Copy, Debug, PartialEq, Eq)]
pub enum Places {
    /// The listing ends without them.
    Unlisted,
    /// A line for each context tells its host.
    Listed,
}

/// How the machine's labels are picked where no threads run it.
#[derive(Clone, Copy, Debug, PartialEq, Eq)]
pub enum Schedule {
    /// By the generator, from this seed.
    Seed(u64),
    /// What was given the least ticket first.
    Oldest,
    /// What was given the greatest ticket first.
    Newest,
    /// What moves contexts first.
    Movers,
    /// Mail last.
    MailLast,
}

/// Who runs the machine.
#[derive(Clone, Copy, Debug, PartialEq, Eq)]
pub struct Crew {
    /// 1 to 16.
    pub workers: u8,
    /// Where there is one, no threads run it.
    pub schedule: Option<Schedule>,
}

impl Crew {
    /// Whether no schedule binds it.
    fn is_free(&self) -> bool
        ensures { result ≡ is_free self.now }
    {
        self.schedule.is_none()
    }
}

/// What the words ask for.
#[derive(Clone, Copy, Debug, PartialEq, Eq)]
pub enum Command {
    /// Runs the script on the service, and lists the results.
    Run(Places, Crew),
    /// The same, by the plain evaluator.
    Seq(Places),
    /// The same as `run`, and behind it the journal of the run.
    Trace(Places, Crew),
    /// Runs the script on the service, and writes the point that it leaves as a checkpoint. The crew has no schedule.
    Save(Crew),
    /// Runs the script on the service from a checkpoint on, and lists the results.
    Resume(Places, Crew),
    /// Replays a journal by so many workers, and tells the machine after this many labels. The crew has no schedule.
    Replay(u64, Crew),
    /// Says whether the service is typed.
    Check,
    /// Writes the service in canonical layout.
    Print,
    /// Writes the service's code.
    Code,
    /// Writes the generated load of a number.
    Gen(u64),
    /// Runs the generated load of a number, and sums it up. The crew has no schedule.
    Load(u64, Crew),
}

impl Command {
    /// Whether it reads standard input.
    pub fn reads_input(&self) -> bool
        ensures { result ≡ reads_input self.now }
    {
        match self {
            Command::Run(_, _)
            | Command::Seq(_)
            | Command::Trace(_, _)
            | Command::Save(_)
            | Command::Resume(_, _)
            | Command::Replay(_, _)
            | Command::Check
            | Command::Print
            | Command::Code => true,
            Command::Gen(_) | Command::Load(_, _) => false,
        }
    }

    /// How many bytes its input may have.
    pub fn input_bytes(&self) -> usize
        ensures { result ≡ input_bytes self.now }
    {
        match self {
            Command::Resume(_, _) | Command::Replay(_, _) => LONG_INPUT_BYTES,
            Command::Run(_, _)
            | Command::Seq(_)
            | Command::Trace(_, _)
            | Command::Save(_)
            | Command::Check
            | Command::Print
            | Command::Code
            | Command::Gen(_)
            | Command::Load(_, _) => INPUT_BYTES,
        }
    }

    /// Whether workers run it, each in a thread of its own.
    pub fn runs_workers(&self) -> bool
        ensures { result ≡ runs_workers self.now }
    {
        match self {
            Command::Run(_, crew) | Command::Trace(_, crew) | Command::Resume(_, crew) => {
                crew.is_free()
            }
            Command::Save(_) | Command::Load(_, _) => true,
            Command::Seq(_)
            | Command::Replay(_, _)
            | Command::Check
            | Command::Print
            | Command::Code
            | Command::Gen(_) => false,
        }
    }
}
