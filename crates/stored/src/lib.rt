// A stored call as it stands in crates/compare/data/calls (docs/STORED.md): its numbers and areas, and whether a reply and what was
// lent are the stored ones.
#![tactic(auto)]

ghost use Rattle.std.specs.Prelude.{◌≡◌, ◌&&◌, ◌+◌, ◌*◌, ◌≤◌, eqb, get_or, length, take};
ghost use Rattle.basis.specs.Lists.{tabulate};
ghost use Rattle.stored.specs.Call.{slot_at, reply_at, word_at, long_at, signed_at, position_of, count_of, area_of};
ghost use Rattle.stored.specs.Same.{area_same};

mod areas;
pub mod lent;
mod read;

pub use areas::Element;

// How long the call is whose length is in these four bytes; 0 after the last call.
pub fn length(head: &[u8]) -> u32
    ensures { result ≡ word_at head.now 0 }
{
    read::word_at(head, 0)
}

// The entry's number, from 1 by the header's order.
pub fn entry(call: &[u8]) -> u8
    ensures { result ≡ get_or call.now 0 0 }
{
    read::byte_at(call, 0)
}

// What the call is to reply: 0, or a refusal's number.
pub fn reply(call: &[u8]) -> u8
    ensures { result ≡ reply_at call.now }
{
    read::byte_at(call, 1)
}

pub fn byte(call: &[u8], k: u8) -> u8
    ensures { result ≡ get_or call.now (slot_at k + 7) 0 }
{
    read::byte_at(call, read::slot(k) + 7)
}

pub fn word(call: &[u8], k: u8) -> u32
    ensures { result ≡ word_at call.now (slot_at k + 4) }
{
    read::word_at(call, read::slot(k) + 4)
}

pub fn size(call: &[u8], k: u8) -> usize
    ensures { result ≡ long_at call.now (slot_at k) }
{
    read::long_at(call, read::slot(k)) as usize
}

pub fn signed(call: &[u8], k: u8) -> i32
    ensures { result ≡ signed_at call.now (slot_at k + 4) }
{
    read::signed_at(call, read::slot(k) + 4)
}

// The bytes of an area that is read.
#[tactic(auto, unfolding(crate::specs::Call::area_of))]
pub fn area(call: &[u8], k: u8) -> &[u8]
    ensures { result.now ≡ area_of call.now k }
{
    let from = areas::position(call, k) as usize;
    let rest = &call[from.min(call.len())..];
    first(rest, areas::count(call, k) as usize)
}

// The elements from where an area that is read stands; what is past its own is not to be looked at.
fn read_into<T: Element>(call: &[u8], k: u8, out: &mut [T])
    requires { length out.old ≤ 400 }
    ensures { out.new ≡ tabulate (length out.old) (λ i. T.kind.element call.now (position_of call.now k) i) }
{
    let from = areas::position(call, k);
    for i in 0..out.len() {
        out[i] = T::element(call, from, i as u32);
    }
}

// The numbers from where an area of signed numbers that is read stands.
pub fn signeds(call: &[u8], k: u8) -> [i32; 400]
    ensures { result ≡ tabulate 400 (λ i. signed_at call.now (position_of call.now k + 4 * i)) }
{
    let mut out = [0i32; 400];
    read_into(call, k, &mut out);
    out
}

// As many of them as the area has.
pub fn signed_area<'a>(call: &[u8], k: u8, all: &'a [i32]) -> &'a [i32]
    ensures { result.now ≡ take (count_of call.now k) all.now }
{
    first(all, areas::count(call, k) as usize)
}

// Six bytes that are read.
pub fn six(call: &[u8], k: u8) -> [u8; 6]
    ensures { result ≡ tabulate 6 (λ i. get_or call.now (position_of call.now k + i) 0) }
{
    let mut out = [0u8; 6];
    read_into(call, k, &mut out);
    out
}

// The five numbers of a run.
pub fn five(call: &[u8], k: u8) -> [u64; 5]
    ensures { result ≡ tabulate 5 (λ i. long_at call.now (position_of call.now k + 8 * i)) }
{
    let mut out = [0u64; 5];
    read_into(call, k, &mut out);
    out
}

// The first n elements, or all where there are fewer.
pub fn first<T>(all: &[T], n: usize) -> &[T]
    ensures { result.now ≡ take n all.now }
{
    &all[..n.min(all.len())]
}

// Whether a call's reply and its areas are the stored ones.
pub fn same(call: &[u8], got: u8, areas: bool) -> bool
    ensures { result ≡ (eqb got (reply_at call.now) && areas) }
{
    got == reply(call) && areas
}

// Whether an area has room for the answer, and each of its elements is the stored one.
pub fn area_same<T: Element>(call: &[u8], k: u8, area: &[T]) -> bool
    ensures { result ≡ area_same T.kind call.now k area.now }
{
    let from = areas::position(call, k);
    let count = areas::answered(call, k);
    let mut same = count as usize <= area.len();
    for (i, x) in area.iter().enumerate() {
        same &= x.is(areas::wanted(call, from, count, i));
    }
    same
}
