//! What the tests share: a register over trays with its stations, calls as values, and what they say.
//!
//! A test takes a slip down as its two numbers, so that it can end with any outcome. No program outside this crate can.
use super::*;
use keys::Tray;
use protocol::Stage;
use std::process::Abort;
use std::test::Fail;

/// The numbers of a slip: the register's and the station's.
#[derive(Clone, Copy, PartialEq, Eq, Debug)]
pub struct Numbers(pub u32, pub usize);

impl From<Slip> for Numbers {
    fn from(slip: Slip) -> Numbers {
        let Slip { register, station } = slip;
        Numbers(register, station)
    }
}

impl From<Numbers> for Slip {
    fn from(numbers: Numbers) -> Slip {
        let Numbers(register, station) = numbers;
        Slip { register, station }
    }
}

/// A call: stations by number, keys by tray number. Of several steps all but the last go on.
#[derive(Clone, Copy, PartialEq, Eq, Debug)]
pub enum Call {
    Begin(usize, u16),
    Steps(usize, usize),
    Collect(Numbers),
    Withdraw(Numbers),
    Enter(u16),
}

/// What an accepted call says.
#[derive(Clone, Copy, PartialEq, Eq, Debug)]
pub enum Said {
    Begun(Numbers),
    Stepped(Progress),
    Told(Answer),
    Left(Departure),
}

/// All cells and all records.
#[derive(Clone, Copy, PartialEq, Eq, Debug)]
pub struct Memory<'a> {
    pub cells: &'a [Cell<Tray>],
    pub stations: &'a [Station<Tray>],
}

/// An occupied cell without a mark.
pub fn held(key: Tray) -> Cell<Tray> {
    Cell {
        occupied: true,
        ..Cell::empty(key)
    }
}

/// An occupied cell with a mark.
pub fn marked(key: Tray) -> Cell<Tray> {
    Cell {
        marked: true,
        ..held(key)
    }
}

/// A station at home with a withdrawn entry.
pub fn leaving(key: Tray) -> Station<Tray> {
    Station {
        key,
        stage: Stage::Home,
        withdrawn: true,
    }
}

/// A register with its stations.
#[derive(Drop)]
pub struct Trial<'a, R> {
    pub rt: &'a R,
    pub register: Register<'a, Tray>,
    pub stations: &'a mut [Station<Tray>],
}

impl<'a, R: Abort> Trial<'a, R> {
    /// Opens register 5 with the filler 7.
    pub fn open(
        rt: &'a R,
        cells: &'a mut [Cell<Tray>],
        stations: &'a mut [Station<Tray>],
    ) -> Result<Trial<'a, R>, Fail> {
        let register = open(cells, stations, 5, Tray::new(7)?);
        Ok(Trial {
            rt,
            register,
            stations,
        })
    }

    /// Register 5 over this memory as it stands.
    pub fn over(
        rt: &'a R,
        cells: &'a mut [Cell<Tray>],
        stations: &'a mut [Station<Tray>],
    ) -> Trial<'a, R> {
        Trial {
            rt,
            register: Register { cells, number: 5 },
            stations,
        }
    }

    /// The memory as it stands.
    pub fn memory(&self) -> Memory<'_> {
        Memory {
            cells: self.register.cells(),
            stations: self.stations,
        }
    }

    // So many steps of a station.
    fn steps(&mut self, s: usize, steps: usize) -> Result<Progress, Refusal> {
        for _ in 1..steps {
            assert_eq!(self.rt; self.register.step(self.stations, s)?, Progress::GoesOn);
        }
        self.register.step(self.stations, s)
    }

    // A refused slip comes back as it was.
    fn outcome<T: Drop>(&self, said: Result<T, Refused>, numbers: Numbers) -> Result<T, Refusal> {
        match said {
            Ok(x) => Ok(x),
            Err(Refused { slip, refusal }) => {
                assert_eq!(self.rt; Numbers::from(slip), numbers);
                Err(refusal)
            }
        }
    }

    // Makes a call: what it says.
    fn say(&mut self, call: Call) -> Result<Result<Said, Refusal>, Fail> {
        Ok(match call {
            Call::Begin(s, key) => self
                .register
                .begin(self.stations, s, Tray::new(key)?)
                .map(|slip| Said::Begun(Numbers::from(slip))),
            Call::Steps(s, steps) => self.steps(s, steps).map(Said::Stepped),
            Call::Collect(numbers) => {
                let said = self.register.collect(self.stations, Slip::from(numbers));
                self.outcome(said, numbers).map(Said::Told)
            }
            Call::Withdraw(numbers) => {
                let said = self.register.withdraw(self.stations, Slip::from(numbers));
                self.outcome(said, numbers).map(Said::Left)
            }
            Call::Enter(key) => self.register.enter(Tray::new(key)?).map(Said::Told),
        })
    }

    /// Makes calls, each of which says what stands beside it.
    pub fn run(&mut self, calls: &[(Call, Result<Said, Refusal>)]) -> Result<(), Fail> {
        for &(call, said) in calls {
            assert_eq!(self.rt; self.say(call)?, said, "at {call:?}");
        }
        Ok(())
    }

    /// Steps a station until a step says this, at most so many times.
    pub fn step_until(&mut self, s: usize, wanted: Progress, most: usize) -> Result<(), Fail> {
        for _ in 0..most {
            if self.register.step(self.stations, s)? == wanted {
                return Ok(());
            }
        }
        Err(Fail::new("too many steps"))
    }

    /// Whole entries, each with its answer.
    pub fn enter_all(&mut self, keys: &[(u16, Answer)]) -> Result<(), Fail> {
        for &(key, answer) in keys {
            self.run(&[(Call::Enter(key), Ok(Said::Told(answer)))])?;
        }
        Ok(())
    }

    /// The same by steps of one station.
    pub fn step_all(&mut self, s: usize, keys: &[(u16, Answer)]) -> Result<(), Fail> {
        let slip = Numbers(5, s);
        for &(key, answer) in keys {
            self.run(&[(Call::Begin(s, key), Ok(Said::Begun(slip)))])?;
            self.step_until(s, Progress::Answered, 70)?;
            self.run(&[(Call::Collect(slip), Ok(Said::Told(answer)))])?;
        }
        Ok(())
    }

    /// The keys of the cells, by the question.
    pub fn check_row(&mut self, row: &[Option<u16>]) {
        for (i, &expected) in row.iter().enumerate() {
            let found = self.register.key_at(i).map(|key| key.number());
            assert_eq!(self.rt; found, expected, "at {i}");
        }
        assert_eq!(self.rt; self.register.key_at(row.len()), None);
    }

    /// The refusals of the five calls about a station with its slip and this key, none for a call that is not made:
    /// each leaves the memory as it was.
    pub fn refuse(
        &mut self,
        kept: Memory<'_>,
        slip: Numbers,
        key: u16,
        refusals: [Option<Refusal>; 5],
    ) -> Result<(), Fail> {
        let Numbers(_, s) = slip;
        let calls = [
            Call::Begin(s, key),
            Call::Steps(s, 1),
            Call::Collect(slip),
            Call::Withdraw(slip),
            Call::Enter(key),
        ];
        for (call, refusal) in calls.into_iter().zip(refusals) {
            if let Some(refusal) = refusal {
                self.run(&[(call, Err(refusal))])?;
                assert_eq!(self.rt; self.memory(), kept, "after {call:?}");
            }
        }
        Ok(())
    }
}
