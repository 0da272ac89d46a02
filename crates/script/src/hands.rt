//! The slips in hand, one place for each station.
ghost use Rattle.std.specs.Prelude.{◌≡◌, ◌<◌, length, Some, None, slice_index_or, slice_set};
ghost use Rattle.script.specs.Hands.{slips_left};

use register::Slip;

/// Takes the slip of a station out of hand, if there is one.
pub fn pick(slips: &mut [Option<Slip>], station: usize) -> Option<Slip>
    ensures value { result ≡ slice_index_or slips.old station None }
    ensures after { slips.new ≡ slice_set slips.old station None }
{
    // Tried: `slips.get_mut(station)?.take()`. After it nothing is known of the slips, so the proof does not close.
    if station < slips.len() {
        slips[station].take()
    } else {
        None
    }
}

/// Puts the slip of a station into its place, which is empty.
pub fn lay(slips: &mut [Option<Slip>], station: usize, slip: Slip)
    requires within { station < length slips.old }
    requires empty { slice_index_or slips.old station None ≡ None }
    ensures { slips.new ≡ slice_set slips.old station (Some slip) }
{
    match slips[station].replace(slip) {
        None => {}
        Some(_) => unreachable(),
    }
}

// A place with no slip in hand.
fn put_one_away(held: Option<Slip>)
    requires { held ≡ None }
{
    match held {
        None => {}
        Some(_) => unreachable(),
    }
}

/// Lets the places go, with no slip in hand.
pub fn put_away(slips: [Option<Slip>; 4])
    requires { slips_left slips ≡ 0 }
{
    // No loop: an iterator over places for slips could not be let go at its end, as a slip cannot.
    let [first, second, third, fourth] = slips;
    put_one_away(first);
    put_one_away(second);
    put_one_away(third);
    put_one_away(fourth);
}
