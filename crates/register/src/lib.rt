//! The register: a set of keys that many stations fill together.
//!
//! A register stands over cells that the caller lends. Stations enter keys a step at a time, in any order of turns,
//! or a whole entry is made in one call. Each call's contract is one equation with the protocol's definition of that call,
//! over the memory behind its references at the entry and at the exit; and `open` promises of the register that it opens
//! that no turns whatever split a key.
#![tactic(auto)]

ghost use Rattle.std.specs.Prelude.{◌≡◌, ℕ, List, Err};
ghost use Rattle.protocol.specs.declared.Refusal.{Refusal as RefusalOf};
ghost use Rattle.protocol.specs.declared.Station.{Station as StationOf};
ghost use Rattle.protocol.specs.Calls.{opening, question};
ghost use Rattle.protocol.specs.Turns.{begin as Begin, step as Step, collect as Collect, withdraw as Withdraw, enter as Enter, turned};
ghost use Rattle.protocol.specs.Safety.{SafeFrom};
ghost use Rattle.register.specs.Memory.{behind, hands_out, hands_back};

mod calls;
mod checks;
mod opening;
mod slips;

use keys::Key;
use protocol::{Answer, Cell, Departure, Progress, Refusal, Station};
pub use slips::{Refused, Slip};

/// A register over the caller's cells.
#[derive(Drop)]
pub struct Register<'a, K> {
    cells: &'a mut [Cell<K>],
    number: u32,
}

/// Opens a register over these cells. It is never refused.
///
/// Every cell is emptied and unmarked, and the filler written there; every station becomes idle and keeps its key.
/// Over 0 cells or more than 65,536 nothing is written; with no station records or more than 64 no record is.
pub fn open<'a, K: Key>(
    cells: &'a mut [Cell<K>],
    stations: &mut [Station<K>],
    number: u32,
    filler: K,
) -> Register<'a, K>
    ensures opened { behind result stations.new ≡ opening number cells.old stations.old filler }
    ensures safe { SafeFrom K.order K.home (behind result stations.new) }
{
    opening::prepare(cells, stations, filler);
    Register { cells, number }
}

impl<'a, K: Key> Register<'a, K> {
    /// Begins an entry of this key at an idle station, and hands out its slip.
    pub fn begin(
        &mut self,
        stations: &mut [Station<K>],
        station: usize,
        key: K,
    ) -> Result<Slip, Refusal>
        ensures { (behind self.new stations.new, result) ≡ hands_out (turned K.order K.home (behind self.old stations.old) (Begin station key)) }
    {
        calls::begin(self.cells.len(), self.number, stations, station, key)
    }

    /// One step of a station.
    pub fn step(&mut self, stations: &mut [Station<K>], station: usize) -> Result<Progress, Refusal>
        ensures { (behind self.new stations.new, result) ≡ turned K.order K.home (behind self.old stations.old) (Step station) }
    {
        calls::step(self.cells, stations, station)
    }

    /// Collects an answered entry: spends its slip and gives its answer. A refused slip comes back.
    pub fn collect(&mut self, stations: &mut [Station<K>], slip: Slip) -> Result<Answer, Refused>
        ensures { (behind self.new stations.new, result) ≡ hands_back slip (turned K.order K.home (behind self.old stations.old) (Collect slip.register slip.station)) }
    {
        let said = calls::collect(self.cells.len(), self.number, stations, &slip);
        slip.spend(said)
    }

    /// Withdraws an entry: spends its slip. An entry that holds a mark goes on. A refused slip comes back.
    pub fn withdraw(
        &mut self,
        stations: &mut [Station<K>],
        slip: Slip,
    ) -> Result<Departure, Refused>
        ensures { (behind self.new stations.new, result) ≡ hands_back slip (turned K.order K.home (behind self.old stations.old) (Withdraw slip.register slip.station)) }
    {
        let said = calls::withdraw(self.cells.len(), self.number, stations, &slip);
        slip.spend(said)
    }

    /// A whole entry: a fresh station's steps in one call. It is refused where a mark bars it, and has then written nothing.
    pub fn enter(&mut self, key: K) -> Result<Answer, Refusal>
        ensures entered { (ts : List (StationOf K)) → (behind self.new ts, result) ≡ turned K.order K.home (behind self.old ts) (Enter key) }
        ensures refused { (e : RefusalOf) → result ≡ Err e → self.new.cells.now ≡ self.old.cells.now }
    {
        calls::enter(self.cells, key)
    }

    /// The cells as they stand, marks and fillers included: for a display, not for deciding what to enter.
    pub fn cells(&self) -> &[Cell<K>]
        ensures { result.now ≡ self.now.cells.now }
    {
        &*self.cells
    }

    /// The key of a cell, none where it is empty, from the number of cells on, and over 0 cells or more than 65,536. Nothing changes.
    pub fn key_at(&mut self, i: usize) -> Option<K>
        ensures value { (ts : List (StationOf K)) → result ≡ question (behind self.old ts) i }
        ensures same { (ts : List (StationOf K)) → behind self.new ts ≡ behind self.old ts }
    {
        calls::key_at(self.cells, i)
    }
}

#[cfg(test)]
mod call_tests;
#[cfg(test)]
mod tests;
#[cfg(test)]
mod trial;
