//! What a stage says of its station.
ghost use Rattle.std.specs.Prelude.{◌≡◌, ◌≤◌, ◌&&◌};
ghost use Rattle.protocol.specs.Stages.{busy, settled, holds_mark, is_place, names_cells};
ghost use Rattle.protocol.specs.Calls.{says};

use crate::cells::is_cell;
use protocol::{Progress, Stage};

/// Whether a station has a step to make: it is neither idle nor answered.
pub fn is_busy(stage: Stage) -> bool
    ensures { result ≡ busy stage }
{
    !matches!(stage, Stage::Idle | Stage::Answered { .. })
}

/// Whether a number is a place of `n` cells: an edge or a cell.
fn is_named(n: usize, place: usize) -> bool
    ensures { result ≡ is_place n place }
{
    place.saturating_sub(n) < 2
}

/// Whether a stage names no cell but those below `n`.
pub fn names_cells(n: usize, stage: Stage) -> bool
    ensures { result ≡ names_cells n stage }
{
    match stage {
        Stage::Idle | Stage::Home | Stage::Answered { .. } => true,
        Stage::Look { at } | Stage::Left { at } => is_named(n, at),
        Stage::Right { left, at } => is_named(n, left) && is_named(n, at),
        Stage::FirstMark { left, right }
        | Stage::SecondMark { left, right }
        | Stage::ReleaseLeft { left, right, .. } => is_named(n, left) && is_named(n, right),
        Stage::GiveBack { cell } => cell < n,
        Stage::Check { left, right, at } => {
            is_named(n, left) && is_named(n, right) && is_named(n, at)
        }
        Stage::Shift {
            left,
            right,
            gap,
            ..
        } => is_named(n, left) && is_named(n, right) && gap < n,
        Stage::ReleaseRight { right, .. } => is_named(n, right),
    }
}

/// Whether an entry at this stage holds a mark.
pub fn holds_mark(n: usize, stage: Stage) -> bool
    ensures { result ≡ holds_mark n stage }
{
    match stage {
        Stage::SecondMark { left, .. } => is_cell(n, left),
        Stage::GiveBack { cell } => cell < n,
        Stage::Check { left, right, .. }
        | Stage::Shift { left, right, .. }
        | Stage::ReleaseLeft { left, right, .. } => is_cell(n, left) || is_cell(n, right),
        Stage::ReleaseRight { right, .. } => is_cell(n, right),
        _ => false,
    }
}

/// Where a withdrawn station would return to home or be answered, it becomes idle.
pub fn settle(stage: Stage, withdrawn: bool) -> Stage
    ensures { result ≡ settled withdrawn stage }
{
    match stage {
        Stage::Home | Stage::Answered { .. } if withdrawn => Stage::Idle,
        _ => stage,
    }
}

/// Whether a station that comes to this stage is withdrawn: becoming idle ends the withdrawal.
pub fn stays_withdrawn(withdrawn: bool, stage: Stage) -> bool
    ensures { result ≡ (withdrawn && busy stage) }
{
    withdrawn && is_busy(stage)
}

/// What a step says that has led to this stage.
pub fn progress(stage: Stage) -> Progress
    ensures { result ≡ says stage }
{
    match stage {
        Stage::Idle => Progress::Idle,
        Stage::Answered { .. } => Progress::Answered,
        _ => Progress::GoesOn,
    }
}
