//! Scripts: which lines are orders, and what whole scripts print.
use keys::{AboveLimit, Tray};
use protocol::Cell;
use script::{Fault, Order, Report, Tally, parse, play};
use std::alloc::{AllocError, Global};
use std::test::Fail;

#[test]
fn orders_are_read(rt: HostRuntime) -> Result<(), Fail> {
    let tray = Tray::new(999)?;
    assert_eq!(rt;
        parse(b"begin 3 999"),
        Ok(Some(Order::Begin { station: 3, tray }))
    );
    assert_eq!(rt; parse(b"step 64"), Ok(Some(Order::Step { station: 64 })));
    assert_eq!(rt;
        parse(b"collect 0"),
        Ok(Some(Order::Collect { station: 0 }))
    );
    assert_eq!(rt;
        parse(b"withdraw 999999999"),
        Ok(Some(Order::Withdraw {
            station: 999_999_999
        }))
    );
    assert_eq!(rt; parse(b"enter 0999"), Ok(Some(Order::Enter { tray })));
    assert_eq!(rt; parse(b"show"), Ok(Some(Order::Show)));
    assert_eq!(rt; parse(b""), Ok(None));
    assert_eq!(rt; parse(b"# show"), Ok(None));
    Ok(())
}

const MALFORMED: [&[u8]; 14] = [
    b"begin",
    b"begin 1",
    b"begin 1 2 3",
    b"begin  1 2",
    b"step",
    b"step x",
    b"step -1",
    b"step +1",
    b"step 1 ",
    b"step 1234567890",
    b" show",
    b"show 1",
    b"Show",
    b"enter 1,5",
];

#[test]
fn other_lines_are_malformed(rt: HostRuntime) {
    for line in MALFORMED {
        assert_eq!(rt; parse(line), Err(Fault::Malformed));
    }
    assert_eq!(rt; parse(b"enter 1000"), Err(Fault::NoTray(AboveLimit)));
    assert_eq!(rt; parse(b"begin 0 999999999"), Err(Fault::NoTray(AboveLimit)));
}

fn play_three(heap: Global, filler: Tray, script: &[u8]) -> Result<Report, AllocError> {
    let old = Cell {
        occupied: true,
        marked: true,
        ..Cell::empty(filler)
    };
    let mut cells = [old; 3];
    play(heap, &mut cells, filler, script)
}

#[test]
fn scripts_are_played(rt: HostRuntime) -> Result<(), Fail> {
    let none = play_three(rt.alloc(), Tray::new(7)?, b"")?;
    assert!(rt; none.text.is_empty() && none.replies.is_empty());
    let report = play_three(
        rt.alloc(),
        Tray::new(7)?,
        b"show\nenter 500\r\n\nenter x\nbegin 4 1\nbegin 0 400\nbegin 1 500\nstep 1\ncollect 1\ncollect 1\nshow",
    )?;
    let text =
        "cells: – – –\n2 enter 500: INSERTED\nline 4: MALFORMED\n5 begin 4 1: REFUSED 3\n6 begin 0 400: BEGUN\n7 begin 1 500: BEGUN\n8 step 1: ANSWERED\n9 collect 1: FOUND\n10 collect 1: NO SLIP\ncells: – 500 –\n";
    assert!(rt; report.text.as_str() == text);
    assert_eq!(rt; report.left, 1);
    assert_eq!(rt;
        Tally::of(report.replies.as_slice()),
        Tally {
            inserted: 1,
            found: 1,
            full: 0,
            refused: 1,
            malformed: 1
        }
    );
    Ok(())
}
