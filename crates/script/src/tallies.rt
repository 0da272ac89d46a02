//! What was done: the replies of a script, counted.
ghost use Rattle.std.specs.Prelude.{◌≡◌, Some};
ghost use Rattle.script.specs.Tallies.{tells, is_refusal, is_malformed, tally_of, tally_text};

use crate::orders::Fault;
use crate::replies::Reply;
use protocol::Answer;
use std::fmt;

/// How many entries were told INSERTED, FOUND and FULL, how many orders were refused, and how many lines were malformed.
#[derive(Clone, Copy, PartialEq, Eq, Debug)]
pub struct Tally {
    pub inserted: usize,
    pub found: usize,
    pub full: usize,
    pub refused: usize,
    pub malformed: usize,
}

impl fmt::Display for Tally {
    ghost output = { λ t. Some (tally_text t) };

    fn fmt<W: fmt::Write>(&self, f: &mut fmt::Formatter<W>) -> fmt::Result {
        let Tally {
            inserted,
            found,
            full,
            refused,
            malformed,
        } = *self;
        write!(
            f,
            "{inserted} INSERTED, {found} FOUND, {full} FULL, {refused} refused, {malformed} malformed"
        )
    }
}

impl Reply {
    // Whether this is the answer of an entry.
    fn tells(&self, answer: Answer) -> bool
        ensures { result ≡ tells answer self.now }
    {
        *self == Reply::Told(answer)
    }

    // Whether an order or its tray is refused.
    fn is_refusal(&self) -> bool
        ensures { result ≡ is_refusal self.now }
    {
        matches!(self, Reply::Refused(_) | Reply::Faulty(Fault::NoTray(_)))
    }

    // Whether the line is malformed.
    fn is_malformed(&self) -> bool
        ensures { result ≡ is_malformed self.now }
    {
        *self == Reply::Faulty(Fault::Malformed)
    }
}

impl Tally {
    /// Counts some replies.
    pub fn of(replies: &[Reply]) -> Tally
        ensures { result ≡ tally_of replies.now }
    {
        // One pass and no `filter` with `count`, which would be a pass for each number.
        let mut inserted = 0;
        let mut found = 0;
        let mut full = 0;
        let mut refused = 0;
        let mut malformed = 0;
        for reply in replies {
            inserted += usize::from(reply.tells(Answer::Inserted));
            found += usize::from(reply.tells(Answer::Found));
            full += usize::from(reply.tells(Answer::Full));
            refused += usize::from(reply.is_refusal());
            malformed += usize::from(reply.is_malformed());
        }
        Tally {
            inserted,
            found,
            full,
            refused,
            malformed,
        }
    }
}
