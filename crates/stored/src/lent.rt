// Areas to be lent: full of the bytes 0xa5, with room for every stored area and some past it, cut to the length that the call has.
ghost use Rattle.std.specs.Prelude.{◌≡◌, ◌&&◌, get_or, take, replicate};
ghost use Rattle.stored.specs.Call.{count_of};
ghost use Rattle.stored.specs.Same.{bytes_same, signeds_same};

use crate::areas::{self, Element};

pub fn full<T: Element>() -> [T; 400]
    ensures { result ≡ replicate 400 T.kind.untouched }
{
    [T::untouched(); 400]
}

// The first n elements, or all where there are fewer.
pub fn front<T>(area: &mut [T], n: usize) -> &mut [T]
    ensures { result.now ≡ take n area.old }
{
    let most = n.min(area.len());
    &mut area[..most]
}

// As many of an area's elements as the call lends.
pub fn cut<'a, T>(call: &[u8], k: u8, area: &'a mut [T]) -> &'a mut [T]
    ensures { result.now ≡ take (count_of call.now k) area.old }
{
    front(area, areas::count(call, k) as usize)
}

// Three areas of events, by their slots.
pub fn events_same(
    call: &[u8],
    slots: [u8; 3],
    lasts: &[u8; 400],
    runs: &[u8; 400],
    levels: &[i32; 400],
) -> bool
    ensures { let l = call.now in
        result ≡ (bytes_same l (get_or slots 0 0) lasts.now
        && (bytes_same l (get_or slots 1 0) runs.now && signeds_same l (get_or slots 2 0) levels.now)) }
{
    let first = crate::area_same(call, slots[0], lasts);
    let second = crate::area_same(call, slots[1], runs);
    let third = crate::area_same(call, slots[2], levels);
    first && second && third
}
