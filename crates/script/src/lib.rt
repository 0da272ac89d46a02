//! Scripts of turns: a text of orders, one to a line, that drives several stations over one register of trays.
#![tactic(auto)]

mod hands;
mod orders;
mod plays;
mod replies;
mod sessions;
mod shown;
mod tallies;

pub use orders::{Fault, Order, parse};
pub use plays::{Report, play};
pub use replies::Reply;
pub use tallies::Tally;
