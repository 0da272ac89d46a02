//! A session: a register of trays, its stations, and the slips in hand.
ghost use Rattle.std.specs.Prelude.{◌≡◌, ◌≤◌, List, [], ◌∷◌, length, replicate, IfOk, None, string_bytes, slice_index_or, slice_set};
ghost use Rattle.keys.specs.Kinds.{tray_order, tray_home};
ghost use Rattle.protocol.specs.Safety.{SafeFrom};
ghost use Rattle.protocol.specs.Calls.{opening};
ghost use Rattle.register.specs.Memory.{behind};
ghost use Rattle.script.specs.Hands.{Held, one_if, slips_left};
ghost use Rattle.script.specs.Sessions.{at_rest, begun, collected, withdrawn, stepped, entered, obeyed};
ghost use Rattle.script.specs.Shown.{row_text};

use crate::hands::{lay, pick};
use crate::orders::Order;
use crate::replies::Reply;
use crate::shown::cells_text;
use keys::Tray;
use protocol::{Cell, Station};
use register::{Refused, Register, Slip, open};
use std::alloc::{AllocError, Global};

/// A register of trays with four stations, and the slips in hand, one place for each station.
///
/// Each slip in hand can be spent, and `settle` spends what is left. A session ends with no slip in hand.
pub struct Session<'a> {
    pub(crate) register: Register<'a, Tray>,
    // The records are an array of their own beside the slips: a register takes a slice of records.
    pub(crate) stations: [Station<Tray>; 4],
    pub(crate) slips: [Option<Slip>; 4],
    ghost four: { length slips ≡ 4 },
    ghost held: { Held (behind register stations) slips },
}

impl<'a> Session<'a> {
    // Cited here, as the definition names the struct.
    ghost use Rattle.script.specs.Behind.{memory};

    /// Opens a register over these cells, with no slip in hand.
    pub fn open(cells: &'a mut [Cell<Tray>], number: u32, filler: Tray) -> Session<'a>
        ensures opened { behind result.register result.stations ≡ opening number cells.old (replicate 4 (at_rest filler)) filler }
        ensures none { result.slips ≡ replicate 4 None }
        ensures safe { SafeFrom tray_order tray_home (behind result.register result.stations) }
    {
        let mut stations = [Station::idle(filler); 4];
        let register = open(cells, &mut stations, number, filler);
        Session {
            register,
            stations,
            slips: [None, None, None, None],
        }
    }

    fn begin(&mut self, station: usize, tray: Tray) -> Reply
        ensures { (memory self.new, self.new.slips, result) ≡ begun (memory self.old) self.old.slips station tray }
    {
        match self.register.begin(&mut self.stations, station, tray) {
            Ok(slip) => {
                lay(&mut self.slips, station, slip);
                Reply::Begun
            }
            Err(refusal) => Reply::Refused(refusal),
        }
    }

    fn collect(&mut self, station: usize) -> Reply
        ensures { (memory self.new, self.new.slips, result) ≡ collected (memory self.old) self.old.slips station }
    {
        match pick(&mut self.slips, station) {
            None => Reply::NoSlip,
            Some(slip) => match self.register.collect(&mut self.stations, slip) {
                Ok(answer) => Reply::Told(answer),
                Err(Refused { slip, refusal }) => {
                    lay(&mut self.slips, station, slip);
                    Reply::Refused(refusal)
                }
            },
        }
    }

    fn withdraw(&mut self, station: usize) -> Reply
        ensures { (memory self.new, self.new.slips, result) ≡ withdrawn (memory self.old) self.old.slips station }
    {
        match pick(&mut self.slips, station) {
            None => Reply::NoSlip,
            Some(slip) => match self.register.withdraw(&mut self.stations, slip) {
                Ok(departure) => Reply::Withdrawn(departure),
                Err(_) => unreachable(),
            },
        }
    }

    fn step(&mut self, station: usize) -> Reply
        ensures { (memory self.new, self.new.slips, result) ≡ stepped (memory self.old) self.old.slips station }
    {
        self.register
            .step(&mut self.stations, station)
            .map_or_else(Reply::Refused, Reply::Stepped)
    }

    fn enter(&mut self, tray: Tray) -> Reply
        ensures { (memory self.new, self.new.slips, result) ≡ entered (memory self.old) self.old.slips tray }
    {
        self.register
            .enter(tray)
            .map_or_else(Reply::Refused, Reply::Told)
    }

    /// Carries out an order.
    pub fn obey(&mut self, order: Order) -> Reply
        ensures { (memory self.new, self.new.slips, result) ≡ obeyed (memory self.old) self.old.slips order }
    {
        match order {
            Order::Begin { station, tray } => self.begin(station, tray),
            Order::Step { station } => self.step(station),
            Order::Collect { station } => self.collect(station),
            Order::Withdraw { station } => self.withdraw(station),
            Order::Enter { tray } => self.enter(tray),
            Order::Show => Reply::Shown,
        }
    }

    /// The cells in their order.
    pub fn row(&self, heap: Global) -> Result<String, AllocError>
        ensures { IfOk result (λ s. string_bytes s ≡ row_text self.now.register.cells.now) }
    {
        cells_text(heap, self.register.cells())
    }

    // Withdraws the slip in hand at a station, and counts it.
    fn spend(&mut self, station: usize) -> usize
        ensures count { result ≡ one_if (slice_index_or self.old.slips station None) }
        ensures bound { result ≤ 1 }
        ensures after { self.new.slips ≡ slice_set self.old.slips station None }
    {
        match self.withdraw(station) {
            Reply::NoSlip => 0,
            _ => 1,
        }
    }

    /// Withdraws every slip that is still in hand, and tells how many there were.
    pub fn settle(&mut self) -> usize
        ensures count { result ≡ slips_left self.old.slips }
        ensures none { slips_left self.new.slips ≡ 0 }
    {
        let mut left = 0;
        for station in 0..4 {
            left += self.spend(station);
        }
        left
    }
}
