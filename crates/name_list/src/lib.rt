//! Lists of names, one to a line: which line is new, which is the same name as an earlier one, which is refused.
#![tactic(auto)]

ghost use Rattle.std.specs.Prelude.{◌≡◌, ℕ, ◌+◌, ◌<◌, ◌≤◌, List, ◌++◌, length, IfOk, Some, string_bytes, codes, decimal};
ghost use Rattle.text.specs.Lines.{unread};
ghost use Rattle.names.specs.Reading.{reading};
ghost use Rattle.name_list.specs.Seen.{Lawful, Noted};
ghost use Rattle.name_list.specs.Lists.{is_new, is_refused, answers_to, tally_of, written, tallied};

use names::{Fault, Name, read};
use std::alloc::{AllocError, Global};
use std::collections::BTreeMap;
use std::fmt;
use text::Lines;

/// What a line of a list of names is answered.
#[derive(Clone, Copy, PartialEq, Eq, Debug)]
pub enum Answer {
    /// No earlier line has this name.
    New,
    /// The name first came at this line, counted from 1.
    Same(usize),
    /// The line is no name.
    Refused(Fault),
}

impl Answer {
    fn is_new(&self) -> bool
        ensures { result ≡ is_new self.now }
    {
        matches!(self, Answer::New)
    }

    fn is_refused(&self) -> bool
        ensures { result ≡ is_refused self.now }
    {
        matches!(self, Answer::Refused(_))
    }
}

impl fmt::Display for Answer {
    ghost output = { λ a. Some (written a) };

    fn fmt<W: fmt::Write>(&self, f: &mut fmt::Formatter<W>) -> fmt::Result {
        match *self {
            Answer::New => write!(f, "NEW"),
            Answer::Same(line) => write!(f, "SAME {line}"),
            Answer::Refused(fault) => write!(f, "{fault}"),
        }
    }
}

// The answer to the n-th line, by the line where each name first came, and that map after it.
fn note(first: &mut BTreeMap<Name, usize>, n: usize, line: &[u8]) -> Result<Answer, AllocError>
    requires { Lawful first.old }
    ensures { IfOk result (λ a. Noted first.old n (reading line.now) a first.new) }
{
    let name = match read(line) {
        Ok(name) => name,
        Err(fault) => return Ok(Answer::Refused(fault)),
    };
    if let Some(line) = first.get(&name) {
        return Ok(Answer::Same(*line));
    }
    first.insert(name, n)?;
    Ok(Answer::New)
}

/// At most so many lines are read.
pub const MOST_LINES: usize = 65_536;

/// The answers to a list of names, in the order of its lines, and the bytes after the lines that were read.
#[derive(Drop)]
pub struct Report<'a> {
    pub answers: Vec<Answer>,
    pub unread: &'a [u8],
}

/// Reads a list of names, one to a line, and says of each line whether it is new, the same name as an earlier one, or refused.
///
/// A line ends at byte 0A; a 0D directly before belongs to its end. The last line may lack its end.
pub fn answer_lines(heap: Global, bytes: &[u8]) -> Result<Report<'_>, AllocError>
    ensures { IfOk result (λ p. (p.answers.items ≡ answers_to bytes.now) × (p.unread.now ≡ unread 65536 bytes.now)) }
{
    let mut first = BTreeMap::new(heap);
    let mut answers = Vec::new(heap);
    let mut lines = Lines::of(bytes);
    // Taken one by one: what is left after the last line is told too.
    for n in 1..=MOST_LINES {
        let Some(line) = lines.next() else {
            break;
        };
        answers.push(note(&mut first, n, line)?)?;
    }
    Ok(Report {
        answers,
        unread: lines.rest(),
    })
}

/// How many lines there were, how many different names, how many refusals.
#[derive(Clone, Copy, PartialEq, Eq, Debug)]
pub struct Tally {
    pub lines: usize,
    pub names: usize,
    pub refusals: usize,
}

impl fmt::Display for Tally {
    ghost output = { λ t. Some (tallied t) };

    fn fmt<W: fmt::Write>(&self, f: &mut fmt::Formatter<W>) -> fmt::Result {
        let Tally {
            lines,
            names,
            refusals,
        } = *self;
        write!(f, "{lines} lines, {names} names, {refusals} refusals")
    }
}

impl Tally {
    /// Counts some answers.
    pub fn of(answers: &[Answer]) -> Tally
        ensures { result ≡ tally_of answers.now }
    {
        // One pass and no `filter` with `count`, which would be a pass for each number.
        let mut names = 0;
        let mut refusals = 0;
        for answer in answers {
            names += usize::from(answer.is_new());
            refusals += usize::from(answer.is_refused());
        }
        Tally {
            lines: answers.len(),
            names,
            refusals,
        }
    }
}

/// The line that is printed of the n-th answer.
pub fn printed(heap: Global, n: usize, answer: Answer) -> Result<String, AllocError>
    ensures { IfOk result (λ s. string_bytes s ≡ decimal n ++ (codes " " ++ written answer)) }
{
    format!(in heap; "{n} {answer}")
}
