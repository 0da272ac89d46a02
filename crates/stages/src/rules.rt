//! The rule of each stage: what it makes of what is read of the cells.
ghost use Rattle.std.specs.Prelude.{◌≡◌, suc, ◌≤◌, true, length};
ghost use Rattle.protocol.specs.Cells.{cell};
ghost use Rattle.protocol.specs.Stages.{names_cells};
ghost use Rattle.protocol.specs.Step.{kind_over, is_after, at_home, at_look, at_left, at_right, at_first, give_up, at_second, absent, at_check, release};
ghost use Rattle.protocol.specs.Calls.{decision};
ghost use Rattle.stages.specs.Readings.{versus_of, move_of, at_gap};

use crate::Entry;
use crate::cells::{Sight, is_cell, order_at, seen_at, shift, walk};
use keys::Key;
use protocol::{Act, Answer, Cell, Direction, Stage, Walk};
use std::cmp::Ordering;

/// What a step comes to: the next stage, and the one act on the cells.
pub struct Move<K> {
    pub next: Stage,
    pub act: Act<K>,
}

/// The boundaries of an entry, places of `n` cells. A boundary that is no cell is an edge.
#[derive(Clone, Copy)]
struct Boundaries {
    n: usize,
    left: usize,
    right: usize,
}

impl Boundaries {
    fn left_is_cell(self) -> bool
        ensures { result ≡ cell self.n self.left }
    {
        is_cell(self.n, self.left)
    }

    fn right_is_cell(self) -> bool
        ensures { result ≡ cell self.n self.right }
    {
        is_cell(self.n, self.right)
    }
}

/// Goes to a stage, and leaves the cells alone.
fn to<K: Key>(next: Stage) -> Move<K>
    ensures { result ≡ record { next = next; act = Act.Rest } }
{
    Move {
        next,
        act: Act::Rest,
    }
}

/// Home. Marked: it stays. Empty: the key is written. The key itself: found. Otherwise look, on the side where the key would be.
fn at_home<K: Key>(key: K, h: usize, marked: bool, order: Option<Ordering>) -> Move<K>
    requires { h ≤ 65536 }
    ensures { result ≡ move_of (at_home key h marked (versus_of order)) }
{
    if marked {
        return to(Stage::Home);
    }
    match order {
        None => Move {
            next: Stage::Answered {
                answer: Answer::Inserted,
            },
            act: Act::Write { place: h, key },
        },
        Some(Ordering::Equal) => to(Stage::Answered {
            answer: Answer::Found,
        }),
        Some(Ordering::Greater) => to(Stage::Look {
            at: h.saturating_sub(1),
        }),
        Some(Ordering::Less) => to(Stage::Look { at: h + 1 }),
    }
}

/// Look. The key: found. At the walk's end: left, beside home. Otherwise one place on.
fn at_look<K: Key>(h: usize, walk: Walk) -> Move<K>
    ensures { result ≡ move_of (at_look h walk) }
{
    match walk {
        Walk::Here => to(Stage::Answered {
            answer: Answer::Found,
        }),
        Walk::Ended => to(Stage::Left {
            at: h.saturating_sub(1),
        }),
        Walk::Onward { to: at } => to(Stage::Look { at }),
    }
}

/// Left. Marked: home. Occupied: one further left. Otherwise the place is the left boundary, and next is right, beside home.
fn at_left<K: Key>(h: usize, at: usize, seen: Sight) -> Move<K>
    requires { h ≤ 65536 }
    ensures { result ≡ move_of (at_left h at seen.marked seen.occupied) }
{
    if seen.marked {
        to(Stage::Home)
    } else if seen.occupied {
        to(Stage::Left {
            at: at.saturating_sub(1),
        })
    } else {
        to(Stage::Right {
            left: at,
            at: h + 1,
        })
    }
}

/// Right. Marked: home. Occupied: one further right. Otherwise the place is the right boundary, and next is first mark.
fn at_right<K: Key>(left: usize, at: usize, seen: Sight) -> Move<K>
    requires { at ≤ 65537 }
    ensures { result ≡ move_of (at_right left at seen.marked seen.occupied) }
{
    if seen.marked {
        to(Stage::Home)
    } else if seen.occupied {
        to(Stage::Right { left, at: at + 1 })
    } else {
        to(Stage::FirstMark { left, right: at })
    }
}

/// First mark. An edge is taken as it is, an empty unmarked cell is marked; otherwise home.
fn at_first<K: Key>(ends: Boundaries, seen: Sight) -> Move<K>
    ensures { result ≡ move_of (at_first ends.left ends.right (cell ends.n ends.left) seen.marked seen.occupied) }
{
    let Boundaries { left, right, .. } = ends;
    if !ends.left_is_cell() {
        to(Stage::SecondMark { left, right })
    } else if seen.marked || seen.occupied {
        to(Stage::Home)
    } else {
        Move {
            next: Stage::SecondMark { left, right },
            act: Act::Mark { place: left },
        }
    }
}

/// The right boundary was not to be had: give back the left one if it is a cell, else home.
fn give_up<K: Key>(ends: Boundaries) -> Move<K>
    ensures { result ≡ move_of (give_up ends.left (cell ends.n ends.left)) }
{
    if ends.left_is_cell() {
        to(Stage::GiveBack {
            cell: ends.left.saturating_sub(1),
        })
    } else {
        to(Stage::Home)
    }
}

/// Second mark. An edge is taken as it is, an empty unmarked cell is marked, and next is check, at home; otherwise the entry gives up.
fn at_second<K: Key>(h: usize, ends: Boundaries, seen: Sight) -> Move<K>
    ensures { result ≡ move_of (at_second h ends.left ends.right (cell ends.n ends.left) (cell ends.n ends.right) seen.marked seen.occupied) }
{
    let Boundaries { left, right, .. } = ends;
    let next = Stage::Check { left, right, at: h };
    if !ends.right_is_cell() {
        to(next)
    } else if seen.marked || seen.occupied {
        give_up(ends)
    } else {
        Move {
            next,
            act: Act::Mark { place: right },
        }
    }
}

/// The end of the check's walk. Both boundaries edges: full. Otherwise shift: the gap starts at the right boundary if that is a cell and
/// either the key at home is after this one or the left boundary is the edge; else at the left one.
fn absent<K: Key>(ends: Boundaries, after: bool) -> Move<K>
    ensures { result ≡ move_of (absent ends.left ends.right (cell ends.n ends.left) (cell ends.n ends.right) after) }
{
    let Boundaries { left, right, .. } = ends;
    if !ends.left_is_cell() && !ends.right_is_cell() {
        to(Stage::ReleaseLeft {
            left,
            right,
            answer: Answer::Full,
        })
    } else if ends.right_is_cell() && (after || !ends.left_is_cell()) {
        to(Stage::Shift {
            towards: Direction::Leftward,
            left,
            right,
            gap: right.saturating_sub(1),
        })
    } else {
        to(Stage::Shift {
            towards: Direction::Rightward,
            left,
            right,
            gap: left.saturating_sub(1),
        })
    }
}

/// Check. The key: found, and the boundaries are released. At the walk's end the key is absent. Otherwise one place on.
fn at_check<K: Key>(ends: Boundaries, order: Option<Ordering>, walk: Walk) -> Move<K>
    ensures { result ≡ move_of (at_check ends.left ends.right (cell ends.n ends.left) (cell ends.n ends.right) (is_after (versus_of order)) walk) }
{
    let Boundaries { left, right, .. } = ends;
    match walk {
        Walk::Here => to(Stage::ReleaseLeft {
            left,
            right,
            answer: Answer::Found,
        }),
        Walk::Ended => absent(ends, matches!(order, Some(Ordering::Greater))),
        Walk::Onward { to: at } => to(Stage::Check { left, right, at }),
    }
}

/// Shift. A key that is due is copied into the gap, which moves to where that key stood. Otherwise the key is written there, and the
/// boundaries are released.
fn at_shift<K: Key>(
    key: K,
    towards: Direction,
    ends: Boundaries,
    gap: usize,
    copy: Option<K>,
) -> Move<K>
    requires { gap ≤ 65536 }
    ensures { result ≡ move_of (at_gap key towards ends.left ends.right gap copy) }
{
    let Boundaries { left, right, .. } = ends;
    let place = gap + 1;
    let Some(key) = copy else {
        return Move {
            next: Stage::ReleaseLeft {
                left,
                right,
                answer: Answer::Inserted,
            },
            act: Act::Write { place, key },
        };
    };
    let gap = match towards {
        Direction::Leftward => gap.saturating_sub(1),
        Direction::Rightward => gap + 1,
    };
    Move {
        next: Stage::Shift {
            towards,
            left,
            right,
            gap,
        },
        act: Act::Write { place, key },
    }
}

/// A release: the boundary is unmarked if it is a cell.
fn release<K: Key>(n: usize, place: usize, next: Stage) -> Move<K>
    ensures { result ≡ move_of (release place (cell n place) next) }
{
    if is_cell(n, place) {
        Move {
            next,
            act: Act::Unmark { place },
        }
    } else {
        to(next)
    }
}

/// Give back: the left boundary is unmarked; then home.
fn at_give_back<K: Key>(cell: usize) -> Move<K>
    requires { cell ≤ 65536 }
    ensures { result ≡ record { next = Stage.Home; act = Act.Unmark (suc cell) } }
{
    Move {
        next: Stage::Home,
        act: Act::Unmark { place: cell + 1 },
    }
}

impl<K: Key> Entry<K> {
    /// Sets the stage to the next one, by the rule of the present one and by the cells that it reads, and tells the one act on them.
    pub(crate) fn advance(&mut self, cells: &[Cell<K>]) -> Act<K>
        requires some { 1 ≤ length cells.now }
        requires few { length cells.now ≤ 65536 }
        requires named { names_cells (length cells.now) self.old.stage ≡ true }
        ensures stage { self.new ≡ record { key = self.old.key; stage = (decision (kind_over K.order K.home (length cells.now)) cells.now self.old.key self.old.stage).next } }
        ensures act { result ≡ (decision (kind_over K.order K.home (length cells.now)) cells.now self.old.key self.old.stage).act }
    {
        let key = self.key;
        let n = cells.len();
        let h = key.home(n) + 1;
        let Move { next, act } = match self.stage {
            Stage::Idle | Stage::Answered { .. } => to(self.stage),
            Stage::Home => at_home(key, h, seen_at(cells, h).marked, order_at(cells, key, h)),
            Stage::Look { at } => at_look(h, walk(cells, key, h, at)),
            Stage::Left { at } => at_left(h, at, seen_at(cells, at)),
            Stage::Right { left, at } => at_right(left, at, seen_at(cells, at)),
            Stage::FirstMark { left, right } => {
                at_first(Boundaries { n, left, right }, seen_at(cells, left))
            }
            Stage::SecondMark { left, right } => {
                at_second(h, Boundaries { n, left, right }, seen_at(cells, right))
            }
            Stage::GiveBack { cell } => at_give_back(cell),
            Stage::Check { left, right, at } => {
                let walk = walk(cells, key, h, at);
                at_check(Boundaries { n, left, right }, order_at(cells, key, h), walk)
            }
            Stage::Shift {
                towards,
                left,
                right,
                gap,
            } => {
                let copy = shift(cells, key, towards, gap);
                at_shift(key, towards, Boundaries { n, left, right }, gap, copy)
            }
            Stage::ReleaseLeft {
                left,
                right,
                answer,
            } => release(n, left, Stage::ReleaseRight { right, answer }),
            Stage::ReleaseRight { right, answer } => release(n, right, Stage::Answered { answer }),
        };
        self.stage = next;
        act
    }
}
