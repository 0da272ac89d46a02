//! The lines of a script.
ghost use Rattle.std.specs.Prelude.{◌≡◌, Some};
ghost use Rattle.script.specs.declared.orders.Fault.TheVariants.{NoTray};
ghost use Rattle.script.specs.Orders.{order_text, fault_text, station_in, tray_in, begin_in, order_in, line_in};

use keys::{AboveLimit, Tray};
use std::error::Error;
use std::fmt;
use text::{first_word, is, number};

/// What a line of a script orders. A station is known by its number.
#[derive(Clone, Copy, PartialEq, Eq, Debug)]
pub enum Order {
    /// `begin STATION TRAY`
    Begin { station: usize, tray: Tray },
    /// `step STATION`
    Step { station: usize },
    /// `collect STATION`
    Collect { station: usize },
    /// `withdraw STATION`
    Withdraw { station: usize },
    /// `enter TRAY`: a whole entry
    Enter { tray: Tray },
    /// `show`: the cells
    Show,
}

impl fmt::Display for Order {
    ghost output = { λ o. Some (order_text o) };

    fn fmt<W: fmt::Write>(&self, f: &mut fmt::Formatter<W>) -> fmt::Result {
        match *self {
            Order::Begin { station, tray } => write!(f, "begin {station} {tray}"),
            Order::Step { station } => write!(f, "step {station}"),
            Order::Collect { station } => write!(f, "collect {station}"),
            Order::Withdraw { station } => write!(f, "withdraw {station}"),
            Order::Enter { tray } => write!(f, "enter {tray}"),
            Order::Show => write!(f, "show"),
        }
    }
}

/// Why a line is no order.
#[derive(Clone, Copy, PartialEq, Eq, Debug)]
pub enum Fault {
    /// It is no order.
    Malformed,
    /// Its tray is refused.
    NoTray(AboveLimit),
}

impl fmt::Display for Fault {
    ghost output = { λ e. Some (fault_text e) };

    fn fmt<W: fmt::Write>(&self, f: &mut fmt::Formatter<W>) -> fmt::Result {
        match *self {
            Fault::Malformed => write!(f, "MALFORMED"),
            Fault::NoTray(refusal) => write!(f, "{refusal}"),
        }
    }
}

impl Error for Fault {}

impl From<AboveLimit> for Fault {
    ghost from_gives = { λ e r. r ≡ NoTray e };

    fn from(e: AboveLimit) -> Fault {
        Fault::NoTray(e)
    }
}

fn station_in(word: &[u8]) -> Result<usize, Fault>
    ensures { result ≡ station_in word.now }
{
    let n = number(word).ok_or(Fault::Malformed)?;
    Ok(n as usize)
}

// A number of a tray that is too large for the type is one above the limit too.
fn tray_in(word: &[u8]) -> Result<Tray, Fault>
    ensures { result ≡ tray_in word.now }
{
    let n = number(word).ok_or(Fault::Malformed)?;
    Ok(Tray::new(n.min(1000) as u16)?)
}

// A station's number and a tray.
fn begin_in(words: &[u8]) -> Result<Order, Fault>
    ensures { result ≡ begin_in words.now }
{
    let (first, second) = first_word(words);
    let station = station_in(first)?;
    let tray = tray_in(second)?;
    Ok(Order::Begin { station, tray })
}

// An order, by its first word and what follows it. Words are told apart by `text::is`, so the arms are guards and no patterns.
fn order_in(word: &[u8], rest: &[u8]) -> Result<Order, Fault>
    ensures { result ≡ order_in word.now rest.now }
{
    let order = match word {
        _ if is(word, "begin") => return begin_in(rest),
        _ if is(word, "step") => Order::Step {
            station: station_in(rest)?,
        },
        _ if is(word, "collect") => Order::Collect {
            station: station_in(rest)?,
        },
        _ if is(word, "withdraw") => Order::Withdraw {
            station: station_in(rest)?,
        },
        _ if is(word, "enter") => Order::Enter {
            tray: tray_in(rest)?,
        },
        _ if is(word, "show") && rest.is_empty() => Order::Show,
        _ => return Err(Fault::Malformed),
    };
    Ok(order)
}

/// What a line orders. An empty line, or one that begins with a number sign, orders nothing.
pub fn parse(line: &[u8]) -> Result<Option<Order>, Fault>
    ensures { result ≡ line_in line.now }
{
    if let [] | [b'#', ..] = line {
        return Ok(None);
    }
    let (word, rest) = first_word(line);
    Ok(Some(order_in(word, rest)?))
}
