//! Single calls over memory as a test sets it: every refusal, by the record that a call meets, and what a withdrawal says.
use super::*;
use crate::trial::{Call, Memory, Numbers, Said, Trial, held, leaving, marked};
use keys::Tray;
use protocol::{Direction, Stage};
use std::process::Abort;
use std::test::Fail;

// Three cells, all marked, and these stations: the refusals of the calls with each slip and this key.
fn refused_among<const N: usize>(
    rt: &impl Abort,
    records: [Station<Tray>; N],
    key: u16,
    rows: &[(Numbers, [Option<Refusal>; 5])],
) -> Result<(), Fail> {
    let kept = [marked(Tray::new(7)?); 3];
    let mut cells = kept;
    let mut stations = records;
    let mut trial = Trial::over(rt, &mut cells, &mut stations);
    let before = Memory {
        cells: &kept,
        stations: &records,
    };
    for &(slip, refusals) in rows {
        trial.refuse(before, slip, key, refusals)?;
    }
    trial.check_row(&[Some(7), Some(7), Some(7)]);
    Ok(())
}

// The refusals of the calls about a station at this stage, which is alone or the second of two.
fn refused_at(
    rt: &impl Abort,
    stage: Stage,
    withdrawn: bool,
    refusals: [Option<Refusal>; 5],
) -> Result<(), Fail> {
    let key = Tray::new(7)?;
    let second = Station {
        key,
        stage,
        withdrawn,
    };
    let first = Station {
        withdrawn: false,
        ..leaving(key)
    };
    let alone = Station {
        key: Tray::new(8)?,
        ..second
    };
    refused_among(rt, [alone], 9, &[(Numbers(5, 0), refusals)])?;
    let other = Some(Refusal::OtherRegister);
    let none = Some(Refusal::NoStation);
    let barred = Some(Refusal::Barred);
    let rows = [
        (Numbers(5, 1), refusals),
        (Numbers(6, 1), [None, None, other, other, barred]),
        (Numbers(5, 2), [none, none, none, none, barred]),
    ];
    refused_among(rt, [first, second], 400, &rows)
}

// The same at each of these stages.
fn refused_at_each(
    rt: &impl Abort,
    stages: &[Stage],
    withdrawn: bool,
    refusals: [Option<Refusal>; 5],
) -> Result<(), Fail> {
    for &stage in stages {
        refused_at(rt, stage, withdrawn, refusals)?;
    }
    Ok(())
}

// The stages of an entry that name cells, each once for every place or cell that it names: that place is p, or that cell is c.
fn stages_naming(p: usize, c: usize) -> [Stage; 18] {
    let answer = Answer::Found;
    let towards = Direction::Rightward;
    let right = |left, at| Stage::Right { left, at };
    let first_mark = |left, right| Stage::FirstMark { left, right };
    let second_mark = |left, right| Stage::SecondMark { left, right };
    let check = |left, right, at| Stage::Check { left, right, at };
    let shift = |left, right, gap| Stage::Shift {
        towards,
        left,
        right,
        gap,
    };
    let release_left = |left, right| Stage::ReleaseLeft {
        left,
        right,
        answer,
    };
    [
        Stage::Look { at: p },
        Stage::Left { at: p },
        right(p, 3),
        right(1, p),
        first_mark(p, 3),
        first_mark(1, p),
        second_mark(p, 3),
        second_mark(1, p),
        Stage::GiveBack { cell: c },
        check(p, 3, 2),
        check(1, p, 2),
        check(1, 3, p),
        shift(p, 3, 1),
        shift(1, p, 1),
        shift(1, 3, c),
        release_left(p, 3),
        release_left(1, p),
        Stage::ReleaseRight { right: p, answer },
    ]
}

#[test]
fn refusals(rt: HostRuntime) -> Result<(), Fail> {
    let busy = Some(Refusal::NotIdle);
    let none = Some(Refusal::NoEntry);
    let early = Some(Refusal::NotAnswered);
    let no_cell = Some(Refusal::NoCell);
    let barred = Some(Refusal::Barred);
    let answer = Answer::Full;
    let idle = [Stage::Idle];
    let answered = [Stage::Answered { answer }];
    refused_at_each(&rt, &idle, false, [None, none, none, none, barred])?;
    refused_at_each(&rt, &idle, true, [None, none, none, none, barred])?;
    refused_at_each(&rt, &answered, false, [busy, none, None, None, barred])?;
    refused_at_each(&rt, &answered, true, [busy, none, none, none, barred])?;
    let fit = stages_naming(4, 2);
    let home = [Stage::Home];
    for stages in [home.as_slice(), fit.as_slice()] {
        refused_at_each(&rt, stages, false, [busy, None, early, None, barred])?;
        refused_at_each(&rt, stages, true, [busy, None, none, none, barred])?;
    }
    let unfit = stages_naming(5, 3);
    refused_at_each(&rt, &unfit, false, [busy, no_cell, early, None, barred])?;
    refused_at_each(&rt, &unfit, true, [busy, no_cell, none, none, barred])
}

// A mark left of home, at home or right of it bars a whole entry.
#[test]
fn barred_by_a_mark(rt: HostRuntime) -> Result<(), Fail> {
    let old = Tray::new(7)?;
    for i in 0..3 {
        let mut kept = [Cell::empty(old), held(Tray::new(500)?), Cell::empty(old)];
        kept[i].marked = true;
        let mut cells = kept;
        let mut trial = Trial::over(&rt, &mut cells, &mut []);
        trial.run(&[(Call::Enter(400), Err(Refusal::Barred))])?;
        assert_eq!(rt; trial.register.cells(), kept.as_slice());
    }
    Ok(())
}

// A station withdraws at this stage, of three cells: what it is told, and the record then.
fn withdrawn_at(rt: &impl Abort, stage: Stage, said: Departure) -> Result<(), Fail> {
    let key = Tray::new(7)?;
    let other = leaving(key);
    let before = Station {
        key,
        stage,
        withdrawn: false,
    };
    let after = match said {
        Departure::GoesOn => Station {
            withdrawn: true,
            ..before
        },
        Departure::Gone => Station::idle(key),
    };
    let kept = [marked(key); 3];
    let mut cells = kept;
    let mut stations = [other, before];
    let mut trial = Trial::over(rt, &mut cells, &mut stations);
    trial.run(&[(Call::Withdraw(Numbers(5, 1)), Ok(Said::Left(said)))])?;
    assert_eq!(rt;
        trial.memory(),
        Memory {
            cells: &kept,
            stations: &[other, after]
        }
    );
    Ok(())
}

// The same at the stages that hold both boundaries.
fn withdrawn_holding(
    rt: &impl Abort,
    left: usize,
    right: usize,
    said: Departure,
) -> Result<(), Fail> {
    let answer = Answer::Full;
    let towards = Direction::Leftward;
    let gap = 1;
    withdrawn_at(rt, Stage::Check { left, right, at: 2 }, said)?;
    withdrawn_at(
        rt,
        Stage::Shift {
            towards,
            left,
            right,
            gap,
        },
        said,
    )?;
    withdrawn_at(
        rt,
        Stage::ReleaseLeft {
            left,
            right,
            answer,
        },
        said,
    )
}

#[test]
fn what_a_withdrawal_says(rt: HostRuntime) -> Result<(), Fail> {
    let answer = Answer::Inserted;
    let rows = [
        (Stage::Home, Departure::Gone),
        (Stage::Look { at: 1 }, Departure::Gone),
        (Stage::Left { at: 1 }, Departure::Gone),
        (Stage::Right { left: 1, at: 3 }, Departure::Gone),
        (Stage::FirstMark { left: 1, right: 3 }, Departure::Gone),
        (Stage::SecondMark { left: 1, right: 4 }, Departure::GoesOn),
        (Stage::SecondMark { left: 0, right: 3 }, Departure::Gone),
        (Stage::GiveBack { cell: 2 }, Departure::GoesOn),
        (Stage::GiveBack { cell: 3 }, Departure::Gone),
        (Stage::ReleaseRight { right: 3, answer }, Departure::GoesOn),
        (Stage::ReleaseRight { right: 4, answer }, Departure::Gone),
        (Stage::Answered { answer }, Departure::Gone),
    ];
    for (stage, said) in rows {
        withdrawn_at(&rt, stage, said)?;
    }
    withdrawn_holding(&rt, 1, 4, Departure::GoesOn)?;
    withdrawn_holding(&rt, 0, 3, Departure::GoesOn)?;
    withdrawn_holding(&rt, 0, 4, Departure::Gone)?;
    withdrawn_holding(&rt, 5, 4, Departure::Gone)
}
