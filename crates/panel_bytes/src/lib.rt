// Bytes of a row that are summed over the tracks: main signals released, trains calling and waiting.
#![tactic(auto)]

ghost use Rattle.std.specs.Prelude.{◌&&◌, ◌≡◌, ◌+◌, get_or};
ghost use Rattle.machine.specs.Common.{bit, sum4};
ghost use Rattle.machine.specs.Plant.{dependent, is_on};

use machine::Entry;

// Main signals released: a bit for each dependent track with its route set, when secured.
pub fn released(s: Entry, route: [u8; 4], secured: bool) -> u8
    ensures { result ≡ bit (dependent s 0 && is_on (get_or route 0 0) && secured) 1 + bit (dependent s 1 && is_on (get_or route 1 0) && secured) 2 + bit (dependent s 2 && is_on (get_or route 2 0) && secured) 4 + bit (dependent s 3 && is_on (get_or route 3 0) && secured) 8 }
{
    bits::flags(
        kind::dependent(s, 0) & (route[0] == 1) & secured,
        kind::dependent(s, 1) & (route[1] == 1) & secured,
        kind::dependent(s, 2) & (route[2] == 1) & secured,
        kind::dependent(s, 3) & (route[3] == 1) & secured,
    )
}

// A count summed over the four tracks.
pub fn sum(count: [u8; 4]) -> u16
    ensures { result ≡ sum4 (λ t. get_or count t 0) }
{
    count.iter().map(|n| u16::from(*n)).sum()
}
