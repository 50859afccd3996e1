//! What can be done, whoever does it.

ghost use Rattle.std.specs.Prelude.{◌≡◌};

use wave_base::{Host, Worker};
use wave_labels::{Act, Label};

/// What can be done by an idle worker: an act, and the host where it is done.
#[derive(Clone, Copy, Debug, PartialEq, Eq)]
pub struct Ready {
    /// The host, from 0.
    pub host: Host,
    /// What is done there.
    pub act: Act,
}

impl Ready {
    /// The label by which a worker does it.
    pub fn by(&self, worker: Worker) -> Label
        ensures { result ≡ record { worker = worker; host = self.now.host; act = self.now.act } }
    {
        Label {
            worker,
            host: self.host,
            act: self.act,
        }
    }
}
