//! The protocol of the shared register: the types of its memory, and the theorem that its calls are safe.
//!
//! Many stations enter keys into one row of cells, a step at a time, in any order of turns.
//! `specs/` says what one step does, what each call does, what one worker alone would do, and what is promised of every run;
//! `proofs/` shows it for every kind of key. Here stand the types that both speak of.
//!
//! A *place* counts the cells together with the two edges: 0 is the left edge, i + 1 is cell i, and N + 1 is the right edge.
#![tactic(auto)]

ghost use Rattle.std.specs.Prelude.{◌≡◌, Some};
ghost use Rattle.protocol.specs.Calls.{blank, fresh, idled};
ghost use Rattle.protocol.specs.Refusals.{number_of};
ghost use Rattle.protocol.specs.Texts.{answer_text, progress_text, departure_text, refusal_text};
ghost use Rattle.protocol.specs.Safety.{Safe};
ghost use Rattle.protocol.specs.Examples.{Examples};

use keys::Key;
use std::error::Error;
use std::fmt;

/// One cell of the caller's memory: empty or occupied by a key, marked or unmarked.
///
/// An empty cell has a key too, a filler that counts as none.
// So the key is no `Option`: by the rules the filler is written there.
#[derive(Clone, Copy, PartialEq, Eq, Debug)]
pub struct Cell<K> {
    pub key: K,
    pub occupied: bool,
    pub marked: bool,
}

impl<K: Key> Cell<K> {
    /// An empty, unmarked cell with this filler.
    pub fn empty(filler: K) -> Cell<K>
        ensures { (c : Cell K) → result ≡ blank filler c }
    {
        Cell {
            key: filler,
            occupied: false,
            marked: false,
        }
    }
}

/// What an entry is told of its key.
#[derive(Clone, Copy, PartialEq, Eq, Debug)]
pub enum Answer {
    /// The key was new and has been written.
    Inserted,
    /// The key was there.
    Found,
    /// The key was not there, and every cell is occupied.
    Full,
}

impl fmt::Display for Answer {
    ghost output = { λ a. Some (answer_text a) };

    fn fmt<W: fmt::Write>(&self, f: &mut fmt::Formatter<W>) -> fmt::Result {
        f.write_str(match self {
            Answer::Inserted => "INSERTED",
            Answer::Found => "FOUND",
            Answer::Full => "FULL",
        })
    }
}

/// Which way a shift moves its gap.
#[derive(Clone, Copy, PartialEq, Eq, Debug)]
pub enum Direction {
    Leftward,
    Rightward,
}

/// Where a station stands with its entry: places, boundaries, and the answer once there is one.
///
/// `left` and `right` are the boundaries, the nearest empty cells on either side of home or else the edges.
// Two fields and no struct of both: the public stages are named as the rules name them, each with what it carries.
#[derive(Clone, Copy, PartialEq, Eq, Debug)]
pub enum Stage {
    /// No entry.
    Idle,
    /// Reads the key's home.
    Home,
    /// Looks for the key from home on, whatever the marks.
    Look {
        at: usize,
    },
    /// Looks for the left boundary.
    Left {
        at: usize,
    },
    /// Looks for the right boundary.
    Right {
        left: usize,
        at: usize,
    },
    /// Marks the left boundary.
    FirstMark {
        left: usize,
        right: usize,
    },
    /// Marks the right boundary.
    SecondMark {
        left: usize,
        right: usize,
    },
    /// Unmarks the left boundary, which is this cell, because the right one was not to be had.
    GiveBack {
        cell: usize,
    },
    /// Looks for the key once more, now that both boundaries are held.
    Check {
        left: usize,
        right: usize,
        at: usize,
    },
    /// Copies keys into the gap, which is a cell, and at last writes the key there.
    Shift {
        towards: Direction,
        left: usize,
        right: usize,
        gap: usize,
    },
    /// Unmarks the left boundary.
    ReleaseLeft {
        left: usize,
        right: usize,
        answer: Answer,
    },
    /// Unmarks the right boundary.
    ReleaseRight {
        right: usize,
        answer: Answer,
    },
    /// The entry waits to be collected.
    Answered {
        answer: Answer,
    },
}

/// A station's record: the key being entered and its stage. An idle station keeps its last key.
// A withdrawn entry goes on through the same stages, so `withdrawn` stands beside the stage.
#[derive(Clone, Copy, PartialEq, Eq, Debug)]
pub struct Station<K> {
    pub key: K,
    pub stage: Stage,
    pub withdrawn: bool,
}

impl<K: Key> Station<K> {
    /// The record of an idle station, with this last key.
    pub fn idle(key: K) -> Station<K>
        ensures { result ≡ idled (fresh key) }
    {
        Station {
            key,
            stage: Stage::Idle,
            withdrawn: false,
        }
    }
}

/// What one step does to the cells: to one cell at most. A write keeps the cell's mark.
#[derive(Clone, Copy, PartialEq, Eq, Debug)]
pub enum Act<K> {
    Rest,
    Mark { place: usize },
    Unmark { place: usize },
    Write { place: usize, key: K },
}

/// What look and check find at a place: the key itself, the end of their walk, or the place to go on to.
#[derive(Clone, Copy, PartialEq, Eq, Debug)]
pub enum Walk {
    Here,
    Ended,
    Onward { to: usize },
}

/// What an accepted step says.
#[derive(Clone, Copy, PartialEq, Eq, Debug)]
pub enum Progress {
    GoesOn,
    Answered,
    Idle,
}

impl fmt::Display for Progress {
    ghost output = { λ a. Some (progress_text a) };

    fn fmt<W: fmt::Write>(&self, f: &mut fmt::Formatter<W>) -> fmt::Result {
        f.write_str(match self {
            Progress::GoesOn => "GOES ON",
            Progress::Answered => "ANSWERED",
            Progress::Idle => "IDLE",
        })
    }
}

/// What an accepted withdrawal says.
#[derive(Clone, Copy, PartialEq, Eq, Debug)]
pub enum Departure {
    /// The entry held no mark, and the station is idle.
    Gone,
    /// The entry holds a mark, and its station is to be stepped until it is idle.
    GoesOn,
}

impl fmt::Display for Departure {
    ghost output = { λ a. Some (departure_text a) };

    fn fmt<W: fmt::Write>(&self, f: &mut fmt::Formatter<W>) -> fmt::Result {
        f.write_str(match self {
            Departure::Gone => "GONE",
            Departure::GoesOn => "GOES ON",
        })
    }
}

/// Why a call of the register is turned down.
#[derive(Clone, Copy, PartialEq, Eq, Debug)]
pub enum Refusal {
    /// The register has no cells or more than 65,536.
    WrongSize = 1,
    /// The slip has another register's number.
    OtherRegister = 2,
    /// There are no stations or more than 64, or the number is not among them.
    NoStation = 3,
    /// Beginning: the station is not idle.
    NotIdle = 4,
    /// Stepping: the station is idle or answered. Collecting, withdrawing: it is idle or already withdrawn.
    NoEntry = 5,
    /// Stepping: the record names a cell that is not below N.
    NoCell = 6,
    /// Collecting: the entry is not answered yet.
    NotAnswered = 7,
    /// Whole entry: a mark bars it.
    Barred = 8,
}

impl Refusal {
    /// The number by which the refusal is known, 1 to 8.
    pub const fn number(self) -> u8
        ensures { result ≡ number_of self }
    {
        self as u8
    }
}

impl fmt::Display for Refusal {
    ghost output = { λ e. Some (refusal_text e) };

    fn fmt<W: fmt::Write>(&self, f: &mut fmt::Formatter<W>) -> fmt::Result {
        write!(f, "REFUSED {}", self.number())
    }
}

impl Error for Refusal {}

/// The safety of the protocol, for this kind of key: whatever was in memory before the opening, and whatever turns follow it,
/// no key is new twice, marks are held as they should be, and all answers are those of one worker alone.
pub fn protocol_is_safe<K: Key>()
    ensures { Safe K.order K.home }
{}

/// The worked examples of the rules, over trays.
pub fn examples_hold()
    ensures { Examples }
{}
