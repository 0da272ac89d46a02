//! The cells, read and changed by place: place 0 is the left edge, i + 1 is cell i, and N + 1 is the right edge.
//!
//! An edge is neither occupied nor marked, and nothing is written there.
ghost use Rattle.std.specs.Prelude.{◌≡◌, ◌≤◌, ◌<◌, suc, length, Some, None, IfSome};
ghost use Rattle.protocol.specs.Cells.{cell, contents, marks, alter_place, with_mark, with_key, cells_after, is_occupied};
ghost use Rattle.protocol.specs.Step.{kind_over, walk_at, versus, beside};
ghost use Rattle.stages.specs.Readings.{cell_at, versus_of, due_of};

use keys::Key;
use protocol::{Act, Cell, Direction, Walk};
use std::cmp::Ordering;

/// What is seen of a place. An edge is neither marked nor occupied.
#[derive(Clone, Copy)]
pub struct Sight {
    pub marked: bool,
    pub occupied: bool,
}

/// Whether a place is a cell, of `n` cells. If not, it is an edge.
pub fn is_cell(n: usize, place: usize) -> bool
    ensures { result ≡ cell n place }
{
    0 < place && place <= n
}

/// The cell at a place, if the place is no edge.
fn cell_at<K: Key>(cells: &[Cell<K>], place: usize) -> Option<Cell<K>>
    ensures { result ≡ cell_at cells.now place }
{
    cells.get(place.checked_sub(1)?).copied()
}

/// The key at a place, if it is an occupied cell.
pub fn held_at<K: Key>(cells: &[Cell<K>], place: usize) -> Option<K>
    ensures value { result ≡ contents cells.now place }
    ensures inside { elim result [ None ↦ Unit {0} | Some x ↦ place ≤ length cells.now ] }
{
    let cell = cell_at(cells, place)?;
    cell.occupied.then_some(cell.key)
}

/// The mark of a place, and whether it is occupied.
pub fn seen_at<K: Key>(cells: &[Cell<K>], place: usize) -> Sight
    ensures marked { result.marked ≡ marks cells.now place }
    ensures occupied { result.occupied ≡ is_occupied (contents cells.now place) }
{
    match cell_at(cells, place) {
        Some(cell) => Sight {
            marked: cell.marked,
            occupied: cell.occupied,
        },
        None => Sight {
            marked: false,
            occupied: false,
        },
    }
}

// By a rule of the project these three are functions over a slice of cells: cells and key are parameters of each.

/// How the key at a place stands to this one, if the place holds a key.
pub fn order_at<K: Key>(cells: &[Cell<K>], key: K, place: usize) -> Option<Ordering>
    ensures value { versus_of result ≡ versus (kind_over K.order K.home (length cells.now)) key (contents cells.now place) }
    ensures inside { IfSome result (λ _. place ≤ length cells.now) }
{
    Some(held_at(cells, place)?.compare(key))
}

/// The walk of look and check for a key whose home is at `h`, at the place `at`: the key itself, the walk's end, or the place to go on to.
pub fn walk<K: Key>(cells: &[Cell<K>], key: K, h: usize, at: usize) -> Walk
    requires few { length cells.now ≤ 65536 }
    ensures { result ≡ walk_at h at (versus (kind_over K.order K.home (length cells.now)) key (contents cells.now at)) }
{
    match order_at(cells, key, at) {
        Some(Ordering::Equal) => Walk::Here,
        Some(Ordering::Greater) if at <= h => Walk::Onward {
            to: at.saturating_sub(1),
        },
        Some(Ordering::Less) if h <= at => Walk::Onward { to: at + 1 },
        _ => Walk::Ended,
    }
}

/// The shift's copy: the key beside the gap, on the side to which the gap moves, if it is due to be copied into the gap.
pub fn shift<K: Key>(cells: &[Cell<K>], key: K, towards: Direction, gap: usize) -> Option<K>
    requires { gap ≤ 65536 }
    ensures { result ≡ due_of K.order key towards (contents cells.now (beside towards gap)) }
{
    let (beside, due) = match towards {
        Direction::Leftward => (gap, Ordering::Greater),
        Direction::Rightward => (gap + 2, Ordering::Less),
    };
    held_at(cells, beside).filter(|x| x.compare(key) == due)
}

/// Marks a place, or takes its mark away.
fn set_mark<K: Key>(cells: &mut [Cell<K>], place: usize, marked: bool)
    ensures { cells.new ≡ alter_place (with_mark marked) place cells.old }
{
    if is_cell(cells.len(), place) {
        cells[place - 1].marked = marked;
    }
}

/// Writes a key at a place. The cell keeps its mark.
fn put_key<K: Key>(cells: &mut [Cell<K>], place: usize, key: K)
    ensures { cells.new ≡ alter_place (with_key key) place cells.old }
{
    if is_cell(cells.len(), place) {
        cells[place - 1] = Cell {
            key,
            occupied: true,
            ..cells[place - 1]
        };
    }
}

/// Makes the one act of a step.
pub fn perform<K: Key>(cells: &mut [Cell<K>], act: Act<K>)
    ensures { cells.new ≡ cells_after act cells.old }
{
    match act {
        Act::Rest => {}
        Act::Mark { place } => set_mark(cells, place, true),
        Act::Unmark { place } => set_mark(cells, place, false),
        Act::Write { place, key } => put_key(cells, place, key),
    }
}
