// Where an area of a stored call stands and how long it is, and the types of its elements.
ghost use Rattle.std.specs.Prelude.{◌≡◌, ◌<◌};
ghost use Rattle.stored.specs.Call.{position_of, count_of};
ghost use Rattle.stored.specs.Same.{Kind, answered_of, wanted, byte_kind, word_kind, long_kind, signed_kind};

use crate::read;

// A number that a lent area may hold.
pub trait Element: Copy {
    ghost kind: { Kind Self };

    // Element i of an area that stands at `from`.
    fn element(call: &[u8], from: u32, i: u32) -> Self
        ensures { result ≡ kind.element call.now from i };

    // 0xa5 in each byte.
    fn untouched() -> Self
        ensures { result ≡ kind.untouched };

    fn is(self, wanted: Self) -> bool
        ensures { result ≡ kind.is self wanted };
}

impl Element for u8 {
    ghost kind = { byte_kind };

    fn element(call: &[u8], from: u32, i: u32) -> u8 {
        read::byte_at(call, from as usize + i as usize)
    }

    fn untouched() -> u8 {
        165
    }

    fn is(self, wanted: u8) -> bool {
        self == wanted
    }
}

impl Element for u32 {
    ghost kind = { word_kind };

    fn element(call: &[u8], from: u32, i: u32) -> u32 {
        read::word_at(call, from as usize + 4 * i as usize)
    }

    fn untouched() -> u32 {
        2779096485
    }

    fn is(self, wanted: u32) -> bool {
        self == wanted
    }
}

impl Element for u64 {
    ghost kind = { long_kind };

    fn element(call: &[u8], from: u32, i: u32) -> u64 {
        read::long_at(call, from as usize + 8 * i as usize)
    }

    fn untouched() -> u64 {
        11936128518282651045
    }

    fn is(self, wanted: u64) -> bool {
        self == wanted
    }
}

impl Element for i32 {
    ghost kind = { signed_kind };

    fn element(call: &[u8], from: u32, i: u32) -> i32 {
        read::signed_at(call, from as usize + 4 * i as usize)
    }

    fn untouched() -> i32 {
        -1515870811
    }

    fn is(self, wanted: i32) -> bool {
        self == wanted
    }
}

pub fn position(call: &[u8], k: u8) -> u32
    ensures { result ≡ position_of call.now k }
{
    read::word_at(call, read::slot(k) + 4)
}

pub fn count(call: &[u8], k: u8) -> u32
    ensures { result ≡ count_of call.now k }
{
    read::word_at(call, read::slot(k) + 12)
}

// How many elements the answer has: none where the call is refused.
#[tactic(auto, unfolding(crate::specs::Same::answered_of))]
pub fn answered(call: &[u8], k: u8) -> u32
    ensures { result ≡ answered_of call.now k }
{
    if crate::reply(call) == 0 {
        count(call, k)
    } else {
        0
    }
}

// What element i is to be, where the answer of `count` elements stands at `from`.
pub fn wanted<T: Element>(call: &[u8], from: u32, count: u32, i: usize) -> T
    ensures { result ≡ wanted T.kind call.now from count i }
{
    if i < count as usize {
        T::element(call, from, i as u32)
    } else {
        T::untouched()
    }
}
