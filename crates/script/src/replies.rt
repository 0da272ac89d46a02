//! What the lines of a script are answered.
ghost use Rattle.std.specs.Prelude.{Some};
ghost use Rattle.script.specs.Shown.{reply_text};

use crate::orders::Fault;
use protocol::{Answer, Departure, Progress, Refusal};
use std::fmt;

/// What a line is answered.
#[derive(Clone, Copy, PartialEq, Eq, Debug)]
pub enum Reply {
    /// An entry is begun, and its slip in hand.
    Begun,
    /// What a step says.
    Stepped(Progress),
    /// The answer of an entry that is collected, or of a whole entry.
    Told(Answer),
    /// What a withdrawal says.
    Withdrawn(Departure),
    /// The register refuses the order.
    Refused(Refusal),
    /// There is no slip of that station in hand.
    NoSlip,
    /// The cells are shown.
    Shown,
    /// The line orders nothing.
    Nothing,
    /// The line is no order.
    Faulty(Fault),
}

impl fmt::Display for Reply {
    ghost output = { λ r. Some (reply_text r) };

    fn fmt<W: fmt::Write>(&self, f: &mut fmt::Formatter<W>) -> fmt::Result {
        match *self {
            Reply::Begun => write!(f, "BEGUN"),
            Reply::Stepped(progress) => write!(f, "{progress}"),
            Reply::Told(answer) => write!(f, "{answer}"),
            Reply::Withdrawn(departure) => write!(f, "{departure}"),
            Reply::Refused(refusal) => write!(f, "{refusal}"),
            Reply::NoSlip => write!(f, "NO SLIP"),
            Reply::Shown => write!(f, "SHOWN"),
            Reply::Nothing => write!(f, "NOTHING"),
            Reply::Faulty(fault) => write!(f, "{fault}"),
        }
    }
}
