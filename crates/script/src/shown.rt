//! What is printed.
ghost use Rattle.std.specs.Prelude.{◌≡◌, IfOk, Some, string_bytes};
ghost use Rattle.script.specs.Shown.{cell_text, row_text};

use keys::Tray;
use protocol::Cell;
use std::alloc::{AllocError, Global};
use std::fmt;
use std::fmt::Write;

// A cell as it is printed: its key, or a dash where it is empty; a star where it is marked.
#[derive(Clone, Copy)]
struct Printed(Cell<Tray>);

impl fmt::Display for Printed {
    ghost output = { λ p. Some (cell_text p.0) };

    fn fmt<W: fmt::Write>(&self, f: &mut fmt::Formatter<W>) -> fmt::Result {
        let Printed(cell) = *self;
        let key = cell.key;
        match (cell.occupied, cell.marked) {
            (true, true) => write!(f, "{key}*"),
            (true, false) => write!(f, "{key}"),
            (false, true) => write!(f, "–*"),
            (false, false) => write!(f, "–"),
        }
    }
}

/// The cells in their order, a space before each.
pub fn cells_text(heap: Global, cells: &[Cell<Tray>]) -> Result<String, AllocError>
    ensures { IfOk result (λ s. string_bytes s ≡ row_text cells.now) }
{
    let mut text = String::from_str(heap, "cells:")?;
    for cell in cells {
        write!(text, " {}", Printed(*cell))?;
    }
    Ok(text)
}
