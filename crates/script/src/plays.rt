//! A script is played over a register of trays with four stations.
ghost use Rattle.std.specs.Prelude.{◌≡◌, ℕ, ◌+◌, length, IfOk, string_bytes};
ghost use Rattle.text.specs.Lines.{lines_of};
ghost use Rattle.script.specs.Behind.{memory};
ghost use Rattle.script.specs.Hands.{slips_left};
ghost use Rattle.script.specs.Plays.{outcome, Outcome, played, Played, from_opening};
ghost use Rattle.script.specs.Reports.{Reports};

use crate::hands::put_away;
use crate::orders::{Order, parse};
use crate::replies::Reply;
use crate::sessions::Session;
use keys::Tray;
use protocol::Cell;
use std::alloc::{AllocError, Global};
use text::Lines;

// Carries out the n-th line of a script: its reply, and what is printed of it.
fn answer(
    session: &mut Session<'_>,
    heap: Global,
    n: usize,
    line: &[u8],
) -> Result<(Reply, String), AllocError>
    ensures { IfOk result (λ p. record { memory = memory session.new; slips = session.new.slips; reply = p.0; text = string_bytes p.1 } ≡ outcome (memory session.old) session.old.slips n line.now) }
{
    match parse(line) {
        Ok(None) => Ok((Reply::Nothing, String::new(heap))),
        Ok(Some(Order::Show)) => {
            let cells = session.row(heap)?;
            Ok((Reply::Shown, format!(in heap; "{cells}\n")?))
        }
        Ok(Some(order)) => {
            let reply = session.obey(order);
            Ok((reply, format!(in heap; "{n} {order}: {reply}\n")?))
        }
        Err(fault) => {
            let reply = Reply::Faulty(fault);
            Ok((reply, format!(in heap; "line {n}: {reply}\n")?))
        }
    }
}

// Carries out the lines of a script: what is printed of them, and their replies.
fn run(
    session: &mut Session<'_>,
    heap: Global,
    script: &[u8],
) -> Result<(String, Vec<Reply>), AllocError>
    ensures { IfOk result (λ p. record { memory = memory session.new; slips = session.new.slips; replies = p.1.items; text = string_bytes p.0 } ≡ played (memory session.old) session.old.slips 1 (lines_of script.now)) }
{
    let mut text = String::new(heap);
    let mut replies = Vec::new(heap);
    for line in Lines::of(script) {
        let (reply, said) = answer(session, heap, replies.len() + 1, line)?;
        text.push_str(said.as_str())?;
        replies.push(reply)?;
    }
    Ok((text, replies))
}

/// What a script came to.
#[derive(Drop)]
pub struct Report {
    /// What is printed of its lines.
    pub text: String,
    /// What each line is answered.
    pub replies: Vec<Reply>,
    /// How many slips were in hand at its end. They are withdrawn.
    pub left: usize,
}

/// Plays a script over a register of these cells with four stations.
pub fn play(
    heap: Global,
    cells: &mut [Cell<Tray>],
    filler: Tray,
    script: &[u8],
) -> Result<Report, AllocError>
    ensures { IfOk result (λ p. Reports p (from_opening 1 cells.old filler script.now)) }
{
    let mut session = Session::open(cells, 1, filler);
    let ran = run(&mut session, heap, script);
    let left = session.settle();
    let Session {
        register: _,
        stations: _,
        slips,
    } = session;
    put_away(slips);
    let (text, replies) = ran?;
    Ok(Report {
        text,
        replies,
        left,
    })
}
