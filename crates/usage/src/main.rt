//! How a program uses a register: it lends cells and station records, makes a whole entry, begins an entry by steps, and spends the slip.
#![tactic(auto)]

use keys::Tray;
use protocol::{Answer, Cell, Departure, Refusal, Station};
use register::{Refused, Register, open};

/// What the entry of one slip came to. Neither end is an error, so this is no `Result`.
enum Outcome {
    Collected(Answer),
    Withdrawn(Departure),
}

/// Begins an entry at station 0, makes one step, and collects it if that has answered it; else the slip comes back, and is withdrawn.
fn enter_in_one_step(
    register: &mut Register<'_, Tray>,
    stations: &mut [Station<Tray>],
    tray: Tray,
) -> Result<Outcome, Refusal> {
    let slip = register.begin(stations, 0, tray)?;
    let _ = register.step(stations, 0);
    match register.collect(stations, slip) {
        Ok(answer) => Ok(Outcome::Collected(answer)),
        Err(Refused { slip, refusal: _ }) => match register.withdraw(stations, slip) {
            Ok(departure) => Ok(Outcome::Withdrawn(departure)),
            Err(_) => unreachable(),
        },
    }
}

fn run(rt: &HostRuntime) -> anyhow::Result<()> {
    let filler = Tray::new(0)?;
    let tray = Tray::new(400)?;
    let mut cells = [Cell::empty(filler); 3];
    let mut stations = [Station::idle(filler); 2];
    let mut register = open(&mut cells, &mut stations, 1, filler);
    match register.enter(tray) {
        Ok(answer) => println!(rt; "400 in one call: {answer:?}")?,
        Err(refusal) => println!(rt; "400 in one call: refused with {}", refusal.number())?,
    }
    match enter_in_one_step(&mut register, &mut stations, tray) {
        Ok(Outcome::Collected(answer)) => println!(rt; "400 by a step: {answer:?}")?,
        Ok(Outcome::Withdrawn(departure)) => println!(rt;
            "400 by a step: withdrawn, {departure:?}"
        )?,
        Err(refusal) => println!(rt; "400 by a step: refused with {}", refusal.number())?,
    }
    match register.key_at(1) {
        Some(key) => println!(rt; "cell 1 holds {key}")?,
        None => println!(rt; "cell 1 is empty")?,
    }
    Ok(())
}

fn main(rt: HostRuntime) -> anyhow::Result<()> {
    run(&rt)
}
