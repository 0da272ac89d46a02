//! The opening: cells and station records are prepared in place.
ghost use Rattle.std.specs.Prelude.{◌≡◌, ℕ, map};
ghost use Rattle.protocol.specs.Calls.{blank, idled, opening};
ghost use Rattle.register.specs.Memory.{world};

use crate::checks::wrong_count;
use keys::Key;
use protocol::{Cell, Station};
use stages::wrong_size;

/// Empties and unmarks every cell, and writes the filler there.
pub fn clear<K: Key>(cells: &mut [Cell<K>], filler: K)
    ensures { cells.new ≡ map (blank filler) cells.old }
{
    // `fill` asks that a clone of the key cannot fail, which `Key` does not say.
    for c in cells.iter_mut() {
        *c = Cell::empty(filler);
    }
}

/// Makes every station idle. Its record keeps its key.
pub fn rest<K: Key>(stations: &mut [Station<K>])
    ensures { stations.new ≡ map idled stations.old }
{
    for t in stations.iter_mut() {
        *t = Station::idle(t.key);
    }
}

/// Prepares the cells and the station records: over 0 cells or more than 65,536 nothing is written,
/// and with no records or more than 64 no record is.
pub fn prepare<K: Key>(cells: &mut [Cell<K>], stations: &mut [Station<K>], filler: K)
    ensures { (number : ℕ) → world number cells.new stations.new ≡ opening number cells.old stations.old filler }
{
    if wrong_size(cells.len()) {
        return;
    }
    clear(cells, filler);
    if !wrong_count(stations.len()) {
        rest(stations);
    }
}
