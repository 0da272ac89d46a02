//! Reads names from standard input, one to a line, and says of each whether it is new, which earlier line has the same name, or
//! why it is refused.
#![tactic(auto)]

use name_list::{MOST_LINES, Tally, answer_lines, printed};
use std::io::Read;

fn run(rt: &HostRuntime) -> anyhow::Result<()> {
    let heap = rt.alloc();
    let mut bytes = Vec::new(heap);
    rt.stdin().read_to_end(&mut bytes)?;
    let report = answer_lines(heap, bytes.as_slice())?;
    for (i, answer) in report.answers.iter().enumerate() {
        rt.println(printed(heap, i + 1, *answer)?)?;
    }
    rt.println(Tally::of(report.answers.as_slice()))?;
    if !report.unread.is_empty() {
        println!(rt; "only {MOST_LINES} lines are read; the rest was left")?;
    }
    Ok(())
}

fn main(rt: HostRuntime) -> anyhow::Result<()> {
    run(&rt)
}
