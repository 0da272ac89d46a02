//! The calls over station records, and the step of a station: what the register's methods pass their cells and records on to.
ghost use Rattle.std.specs.Prelude.{◌≡◌, ℕ, List, length};
ghost use Rattle.protocol.specs.declared.Cell.{Cell as CellOf};
ghost use Rattle.protocol.specs.declared.Station.{Station as StationOf};
ghost use Rattle.protocol.specs.Step.{kind_over};
ghost use Rattle.protocol.specs.Calls.{beginning, collecting, withdrawing, stepping, whole_entry, question};
ghost use Rattle.register.specs.Memory.{world, hands_out};

use crate::checks::{answer_at, check_size, is_gone, is_idle, record_at};
use crate::slips::Slip;
use keys::Key;
use protocol::{Answer, Cell, Departure, Progress, Refusal, Stage, Station};
use stages::{Entry, held_at, holds_mark, is_busy, progress, settle, stays_withdrawn, wrong_size};

// By a rule of the project the register's methods pass what they hold on to functions: here the number of cells and its own number.

/// A beginning, of `n` cells.
pub fn begin<K: Key>(
    n: usize,
    number: u32,
    stations: &mut [Station<K>],
    s: usize,
    key: K,
) -> Result<Slip, Refusal>
    ensures { (cs : List (CellOf K)) → (world number cs stations.new, result) ≡ hands_out (beginning n (world number cs stations.old) s key) }
{
    check_size(n)?;
    let t = record_at(stations, s)?;
    if !is_idle(t.stage) {
        return Err(Refusal::NotIdle);
    }
    stations[s] = Station {
        stage: Stage::Home,
        ..Station::idle(key)
    };
    Ok(Slip {
        register: number,
        station: s,
    })
}

/// A collection, of `n` cells.
pub fn collect<K: Key>(
    n: usize,
    number: u32,
    stations: &mut [Station<K>],
    slip: &Slip,
) -> Result<Answer, Refusal>
    ensures { (cs : List (CellOf K)) → (world number cs stations.new, result) ≡ collecting n (world number cs stations.old) slip.now.register slip.now.station }
{
    check_size(n)?;
    slip.check_register(number)?;
    let t = record_at(stations, slip.station)?;
    if t.withdrawn {
        return Err(Refusal::NoEntry);
    }
    let answer = answer_at(t.stage)?;
    stations[slip.station] = Station::idle(t.key);
    Ok(answer)
}

/// A withdrawal, of `n` cells.
pub fn withdraw<K: Key>(
    n: usize,
    number: u32,
    stations: &mut [Station<K>],
    slip: &Slip,
) -> Result<Departure, Refusal>
    ensures { (cs : List (CellOf K)) → (world number cs stations.new, result) ≡ withdrawing n (world number cs stations.old) slip.now.register slip.now.station }
{
    check_size(n)?;
    slip.check_register(number)?;
    let t = record_at(stations, slip.station)?;
    if is_gone(t) {
        return Err(Refusal::NoEntry);
    }
    if holds_mark(n, t.stage) {
        stations[slip.station] = Station {
            withdrawn: true,
            ..t
        };
        Ok(Departure::GoesOn)
    } else {
        stations[slip.station] = Station::idle(t.key);
        Ok(Departure::Gone)
    }
}

/// A step of a station: its stage is copied out of the record and set to the next one, and then the record is written whole.
pub fn step<K: Key>(
    cells: &mut [Cell<K>],
    stations: &mut [Station<K>],
    s: usize,
) -> Result<Progress, Refusal>
    ensures { (number : ℕ) → (world number cells.new stations.new, result) ≡ stepping (kind_over K.order K.home (length cells.old)) (world number cells.old stations.old) s }
{
    check_size(cells.len())?;
    let Station {
        key,
        stage,
        withdrawn,
    } = record_at(stations, s)?;
    if !is_busy(stage) {
        return Err(Refusal::NoEntry);
    }
    let mut entry = Entry { key, stage };
    entry.turn(cells)?;
    let stage = settle(entry.stage, withdrawn);
    stations[s] = Station {
        key,
        stage,
        withdrawn: stays_withdrawn(withdrawn, stage),
    };
    Ok(progress(stage))
}

/// A whole entry: a fresh station's steps, until one stays at home, returns to it or is answered.
pub fn enter<K: Key>(cells: &mut [Cell<K>], key: K) -> Result<Answer, Refusal>
    ensures { (number : ℕ) (ts : List (StationOf K)) → (world number cells.new ts, result) ≡ whole_entry (kind_over K.order K.home (length cells.old)) (world number cells.old ts) key }
{
    check_size(cells.len())?;
    let mut fresh = Entry {
        key,
        stage: Stage::Home,
    };
    loop {
        fresh.turn(cells)?;
        match fresh.stage {
            Stage::Home => return Err(Refusal::Barred),
            Stage::Answered { answer } => return Ok(answer),
            _ => {}
        }
    }
}

/// The question: the key of an occupied cell. Nothing changes.
pub fn key_at<K: Key>(cells: &mut [Cell<K>], i: usize) -> Option<K>
    ensures value { (number : ℕ) (ts : List (StationOf K)) → result ≡ question (world number cells.old ts) i }
    ensures same { cells.new ≡ cells.old }
{
    if wrong_size(cells.len()) {
        return None;
    }
    held_at(cells, i.checked_add(1)?)
}
