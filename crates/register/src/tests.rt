//! Runs of calls from the opening on: the worked examples, withdrawing at every stage, the limits, and the slip of another register.
use super::*;
use crate::trial::{Call, Memory, Numbers, Said, Trial, held, leaving, marked};
use keys::Tray;
use protocol::Stage;
use std::mem;
use std::process::Abort;
use std::test::Fail;

const INSERTED: Result<Said, Refusal> = Ok(Said::Told(Answer::Inserted));

const TEN: [(u16, Answer); 8] = [
    (145, Answer::Inserted),
    (293, Answer::Inserted),
    (297, Answer::Inserted),
    (458, Answer::Inserted),
    (553, Answer::Inserted),
    (526, Answer::Inserted),
    (841, Answer::Inserted),
    (931, Answer::Inserted),
];

const TEN_ROW: [Option<u16>; 10] = [
    Some(145),
    Some(293),
    Some(297),
    None,
    Some(458),
    Some(526),
    Some(553),
    None,
    Some(841),
    Some(931),
];

const TWO: [(u16, Answer); 4] = [
    (100, Answer::Inserted),
    (200, Answer::Inserted),
    (300, Answer::Full),
    (200, Answer::Found),
];

const THREE: [(u16, Answer); 3] = [
    (500, Answer::Inserted),
    (400, Answer::Inserted),
    (450, Answer::Inserted),
];

const ONE: [(u16, Answer); 3] = [
    (999, Answer::Inserted),
    (0, Answer::Full),
    (999, Answer::Found),
];

// As many cells as the row has, after these keys: by whole entries and then, opened again, by steps of the last station,
// of one and of two.
fn both_ways<const N: usize>(
    rt: &impl Abort,
    keys: &[(u16, Answer)],
    row: &[Option<u16>; N],
) -> Result<(), Fail> {
    let old = Tray::new(7)?;
    for last in 0..2 {
        let mut cells = [marked(old); N];
        let mut stations = [leaving(old); 2];
        let stations = &mut stations[..last + 1];
        let mut trial = Trial::open(rt, &mut cells, stations)?;
        trial.enter_all(keys)?;
        trial.check_row(row);
        let mut trial = Trial::open(rt, &mut cells, stations)?;
        trial.step_all(last, keys)?;
        trial.check_row(row);
    }
    Ok(())
}

#[test]
fn worked_examples(rt: HostRuntime) -> Result<(), Fail> {
    both_ways(&rt, &TEN, &TEN_ROW)?;
    both_ways(&rt, &TWO, &[Some(100), Some(200)])?;
    both_ways(&rt, &THREE, &[Some(400), Some(450), Some(500)])
}

// Three cells, 500 held: the entry of 400. After the sixth step its marks bar others.
const TWELVE: [(Call, Result<Said, Refusal>); 10] = [
    (Call::Enter(500), INSERTED),
    (Call::Begin(0, 400), Ok(Said::Begun(Numbers(5, 0)))),
    (Call::Steps(0, 6), Ok(Said::Stepped(Progress::GoesOn))),
    (Call::Begin(1, 100), Ok(Said::Begun(Numbers(5, 1)))),
    (Call::Steps(1, 1), Ok(Said::Stepped(Progress::GoesOn))),
    (Call::Enter(100), Err(Refusal::Barred)),
    (
        Call::Withdraw(Numbers(5, 1)),
        Ok(Said::Left(Departure::Gone)),
    ),
    (Call::Steps(0, 5), Ok(Said::Stepped(Progress::GoesOn))),
    (Call::Steps(0, 1), Ok(Said::Stepped(Progress::Answered))),
    (Call::Collect(Numbers(5, 0)), INSERTED),
];

#[test]
fn twelve_steps(rt: HostRuntime) -> Result<(), Fail> {
    let old = Tray::new(7)?;
    let mut cells = [marked(old); 3];
    let mut stations = [leaving(old); 2];
    let mut trial = Trial::open(&rt, &mut cells, &mut stations)?;
    trial.run(&TWELVE)?;
    trial.check_row(&[None, Some(400), Some(500)]);
    Ok(())
}

// Three cells, 500 held: the entry of 400 is withdrawn after so many steps. It goes on while it holds a mark.
fn withdraw_after(trial: &mut Trial<'_, impl Abort>, steps: usize) -> Result<Departure, Fail> {
    let slip = Numbers(5, 0);
    trial.run(&[
        (Call::Enter(500), INSERTED),
        (Call::Begin(0, 400), Ok(Said::Begun(slip))),
    ])?;
    for _ in 0..steps {
        let _ = trial.register.step(trial.stations, 0)?;
    }
    let said = if (5..12).contains(&steps) {
        Departure::GoesOn
    } else {
        Departure::Gone
    };
    trial.run(&[(Call::Withdraw(slip), Ok(Said::Left(said)))])?;
    Ok(said)
}

// A withdrawn entry that goes on is stepped until its station is idle; then the station enters another key.
#[test]
fn withdrawing_at_every_stage(rt: HostRuntime) -> Result<(), Fail> {
    let old = Tray::new(7)?;
    for steps in 0..13 {
        let mut cells = [marked(old); 3];
        let mut stations = [leaving(old); 1];
        let mut trial = Trial::open(&rt, &mut cells, &mut stations)?;
        if withdraw_after(&mut trial, steps)? == Departure::GoesOn {
            trial.run(&[(Call::Collect(Numbers(5, 0)), Err(Refusal::NoEntry))])?;
            trial.step_until(0, Progress::Idle, 12)?;
        }
        trial.step_all(0, &[(100, Answer::Inserted)])?;
    }
    Ok(())
}

// Twelve steps of station 0, whatever they say.
fn step_on(trial: &mut Trial<'_, impl Abort>) {
    for _ in 0..12 {
        let _ = trial.register.step(trial.stations, 0);
    }
}

// Twelve steps after the withdrawal, accepted or not, the station is idle; then a whole entry enters another key.
#[test]
fn withdrawing_after_every_step(rt: HostRuntime) -> Result<(), Fail> {
    let old = Tray::new(7)?;
    for steps in 0..13 {
        let mut cells = [marked(old); 3];
        let mut stations = [leaving(old); 1];
        let mut trial = Trial::open(&rt, &mut cells, &mut stations)?;
        let _ = withdraw_after(&mut trial, steps)?;
        step_on(&mut trial);
        trial.run(&[
            (Call::Steps(0, 1), Err(Refusal::NoEntry)),
            (Call::Enter(100), INSERTED),
        ])?;
    }
    Ok(())
}

// Three cells, 500 held: after the first mark of the entry of 400, another entry takes the cell that was to be marked second.
const GIVE_BACK: [(Call, Result<Said, Refusal>); 6] = [
    (Call::Enter(500), INSERTED),
    (Call::Begin(0, 400), Ok(Said::Begun(Numbers(5, 0)))),
    (Call::Steps(0, 5), Ok(Said::Stepped(Progress::GoesOn))),
    (Call::Enter(900), INSERTED),
    (Call::Steps(0, 1), Ok(Said::Stepped(Progress::GoesOn))),
    (
        Call::Withdraw(Numbers(5, 0)),
        Ok(Said::Left(Departure::GoesOn)),
    ),
];

#[test]
fn withdrawing_at_give_back(rt: HostRuntime) -> Result<(), Fail> {
    let old = Tray::new(7)?;
    let key = Tray::new(400)?;
    let mut cells = [marked(old); 3];
    let mut stations = [leaving(old); 1];
    let mut trial = Trial::open(&rt, &mut cells, &mut stations)?;
    trial.run(&GIVE_BACK)?;
    let mut cells = [
        Cell::empty(old),
        held(Tray::new(500)?),
        held(Tray::new(900)?),
    ];
    cells[0].marked = true;
    let going = Station {
        key,
        stage: Stage::GiveBack { cell: 0 },
        withdrawn: true,
    };
    assert_eq!(rt;
        trial.memory(),
        Memory {
            cells: &cells,
            stations: &[going]
        }
    );
    trial.run(&[(Call::Steps(0, 1), Ok(Said::Stepped(Progress::Idle)))])?;
    cells[0].marked = false;
    assert_eq!(rt;
        trial.memory(),
        Memory {
            cells: &cells,
            stations: &[Station::idle(key)]
        }
    );
    trial.run(&[(Call::Enter(400), INSERTED)])?;
    trial.check_row(&[Some(400), Some(500), Some(900)]);
    Ok(())
}

// Over too many cells or none, nothing is written, not even by the opening.
fn wrong_sized(rt: &impl Abort, cells: &mut [Cell<Tray>], kept: &[Cell<Tray>]) -> Result<(), Fail> {
    let records = [leaving(Tray::new(7)?); 1];
    let mut stations = records;
    let mut trial = Trial::open(rt, cells, &mut stations)?;
    let before = Memory {
        cells: kept,
        stations: &records,
    };
    let size = Refusal::WrongSize;
    trial.refuse(before, Numbers(5, 0), 8, [Some(size); 5])?;
    trial.refuse(before, Numbers(6, 1), 400, [Some(size); 5])?;
    trial.run(&[(Call::Enter(7), Err(size))])?;
    assert_eq!(rt; trial.register.key_at(0), None);
    Ok(())
}

// With too many stations or none, no record is written; whole entries go on.
fn wrong_count(
    rt: &impl Abort,
    stations: &mut [Station<Tray>],
    kept: &[Station<Tray>],
) -> Result<(), Fail> {
    let old = Tray::new(7)?;
    let mut cells = [marked(old); 3];
    let mut trial = Trial::open(rt, &mut cells, stations)?;
    trial.check_row(&[None, None, None]);
    let before = Memory {
        cells: &[Cell::empty(old); 3],
        stations: kept,
    };
    let none = Some(Refusal::NoStation);
    let other = Some(Refusal::OtherRegister);
    trial.refuse(before, Numbers(5, 0), 8, [none, none, none, none, None])?;
    trial.refuse(before, Numbers(5, 0), 400, [none, none, none, none, None])?;
    trial.refuse(before, Numbers(6, 0), 400, [none, none, other, other, None])?;
    trial.run(&[(Call::Enter(7), INSERTED)])?;
    trial.check_row(&[Some(7), None, None]);
    Ok(())
}

#[test]
fn limits(rt: HostRuntime) -> Result<(), Fail> {
    let old = Tray::new(7)?;
    wrong_sized(&rt, &mut [], &[])?;
    both_ways(&rt, &ONE, &[Some(999)])?;
    wrong_count(&rt, &mut [], &[])?;
    wrong_count(&rt, &mut [leaving(old); 65], &[leaving(old); 65])
}

// As many cells as a register may have: 999 and 0 by whole entries, 500 and 0 by steps.
fn most(rt: &impl Abort, cells: &mut [Cell<Tray>]) -> Result<(), Fail> {
    let mut stations = [leaving(Tray::new(7)?); 1];
    let mut trial = Trial::open(rt, cells, &mut stations)?;
    trial.enter_all(&[
        (999, Answer::Inserted),
        (0, Answer::Inserted),
        (999, Answer::Found),
    ])?;
    trial.step_all(0, &[(500, Answer::Inserted), (0, Answer::Found)])?;
    let r = &mut trial.register;
    assert!(rt; r.key_at(65_470).is_some() && r.key_at(0).is_some());
    assert!(rt; r.key_at(65_536).is_none() && r.key_at(usize::MAX).is_none());
    Ok(())
}

#[test]
fn most_cells(rt: HostRuntime) -> Result<(), Fail> {
    let old = marked(Tray::new(7)?);
    most(&rt, &mut [old; 65_536])?;
    wrong_sized(&rt, &mut [old; 65_537], &[old; 65_537])
}

// A slip of another register comes back, and is spent at its own. There are 64 stations.
#[test]
fn slip_of_another_register(rt: HostRuntime) -> Result<(), Fail> {
    let old = Tray::new(7)?;
    let slip = Numbers(5, 63);
    let mut cells = [marked(old); 3];
    let mut others = cells;
    let mut stations = [leaving(old); 64];
    let register = open(&mut cells, &mut stations, 5, old);
    let mut other = open(&mut others, &mut stations, 6, old);
    let mut trial = Trial {
        rt: &rt,
        register,
        stations: &mut stations,
    };
    trial.run(&[
        (Call::Begin(63, 500), Ok(Said::Begun(slip))),
        (Call::Steps(63, 1), Ok(Said::Stepped(Progress::Answered))),
    ])?;
    let mut records = [Station::idle(old); 64];
    records[63] = Station {
        key: Tray::new(500)?,
        stage: Stage::Answered {
            answer: Answer::Inserted,
        },
        withdrawn: false,
    };
    let before = Memory {
        cells: &[Cell::empty(old); 3],
        stations: &records,
    };
    let refusal = Some(Refusal::OtherRegister);
    mem::swap(&mut trial.register, &mut other);
    trial.refuse(before, slip, 500, [None, None, refusal, refusal, None])?;
    mem::swap(&mut trial.register, &mut other);
    trial.run(&[(Call::Collect(slip), INSERTED)])
}
