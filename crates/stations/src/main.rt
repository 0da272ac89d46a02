//! Plays a script of turns from standard input over a register of ten trays with four stations, and prints each reply.
#![tactic(auto)]

use keys::Tray;
use protocol::Cell;
use script::{Tally, play};
use std::io::Read;

fn run(rt: &HostRuntime) -> anyhow::Result<()> {
    let heap = rt.alloc();
    let mut bytes = Vec::new(heap);
    rt.stdin().read_to_end(&mut bytes)?;
    let filler = Tray::new(0)?;
    let mut cells = [Cell::empty(filler); 10];
    let report = play(heap, &mut cells, filler, bytes.as_slice())?;
    rt.print(report.text.as_str())?;
    let done = Tally::of(report.replies.as_slice());
    let left = report.left;
    println!(rt;
        "done: {done}; every slip is spent, {left} of them left by the script and withdrawn"
    )?;
    Ok(())
}

fn main(rt: HostRuntime) -> anyhow::Result<()> {
    run(&rt)
}
