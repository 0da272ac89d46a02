//! One step of an entry: the stages of the protocol over cells in memory.
//!
//! `Entry::turn` makes one step: it sets the stage to the next one, by the rule of the present one and by the cells that it reads,
//! and makes the one act on the cells. Its contract is one equation with the protocol's definition of a step.
#![tactic(auto)]

ghost use Rattle.std.specs.Prelude.{◌≡◌, length};
ghost use Rattle.protocol.specs.Step.{kind_over};
ghost use Rattle.protocol.specs.Calls.{bad_size};
ghost use Rattle.stages.specs.Turning.{turning};

mod cells;
mod rules;
mod standing;

pub use cells::held_at;
use keys::Key;
use protocol::{Cell, Refusal, Stage};
pub use standing::{holds_mark, is_busy, names_cells, progress, settle, stays_withdrawn};

/// An entry at its step: its key, and its stage, copied out of a record.
#[derive(Clone, Copy)]
pub struct Entry<K> {
    pub key: K,
    pub stage: Stage,
}

/// Whether a register has 0 cells or more than 65,536.
pub fn wrong_size(n: usize) -> bool
    ensures { result ≡ bad_size n }
{
    n == 0 || n > 65536
}

impl<K: Key> Entry<K> {
    /// One step of an entry. Refused with 1 over 0 cells or more than 65,536, and with 6 where the stage names a cell that is none;
    /// then nothing changes.
    pub fn turn(&mut self, cells: &mut [Cell<K>]) -> Result<(), Refusal>
        ensures { (cells.new, self.new, result) ≡ turning (kind_over K.order K.home (length cells.old)) cells.old self.old }
    {
        if wrong_size(cells.len()) {
            return Err(Refusal::WrongSize);
        }
        if !names_cells(cells.len(), self.stage) {
            return Err(Refusal::NoCell);
        }
        let act = self.advance(cells);
        cells::perform(cells, act);
        Ok(())
    }
}
