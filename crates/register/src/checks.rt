//! The checks of the calls: each is the refusal, or what the call goes on with.
ghost use Rattle.std.specs.Prelude.{◌≡◌, ◌<◌, ◌||◌, length, IfOk};
ghost use Rattle.protocol.specs.declared.Refusal.TheVariants.{WrongSize};
ghost use Rattle.protocol.specs.Stages.{standing, is_idle};
ghost use Rattle.protocol.specs.Calls.{bad_size, bad_count};
ghost use Rattle.register.specs.Checks.{refused_when, seat, answer_by};

use keys::Key;
use protocol::{Answer, Refusal, Stage, Station};
use stages::wrong_size;

/// Whether there are no stations or more than 64.
pub fn wrong_count(n: usize) -> bool
    ensures { result ≡ bad_count n }
{
    n == 0 || n > 64
}

/// The check of the number of cells.
pub fn check_size(n: usize) -> Result<(), Refusal>
    ensures { result ≡ refused_when (bad_size n) WrongSize }
{
    if wrong_size(n) {
        Err(Refusal::WrongSize)
    } else {
        Ok(())
    }
}

/// The record of a station.
pub fn record_at<K: Key>(stations: &[Station<K>], s: usize) -> Result<Station<K>, Refusal>
    ensures value { result ≡ seat stations.now s }
    ensures within { IfOk result (λ _. s < length stations.now) }
{
    if wrong_count(stations.len()) {
        return Err(Refusal::NoStation);
    }
    stations.get(s).copied().ok_or(Refusal::NoStation)
}

/// Whether a station at this stage is idle.
pub fn is_idle(stage: Stage) -> bool
    ensures { result ≡ is_idle stage }
{
    matches!(stage, Stage::Idle)
}

/// Whether a station has no entry to withdraw: it is idle, or its entry is withdrawn already.
pub fn is_gone<K: Key>(t: Station<K>) -> bool
    ensures { result ≡ (is_idle t.stage || t.withdrawn) }
{
    is_idle(t.stage) || t.withdrawn
}

/// The answer of an entry, once it has one.
pub fn answer_at(stage: Stage) -> Result<Answer, Refusal>
    ensures { result ≡ answer_by (standing stage) }
{
    match stage {
        Stage::Idle => Err(Refusal::NoEntry),
        Stage::Answered { answer } => Ok(answer),
        _ => Err(Refusal::NotAnswered),
    }
}
