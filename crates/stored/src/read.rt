// Numbers at places of a stored call, high byte first; past its end it reads as 0.
ghost use Rattle.std.specs.Prelude.{◌≡◌, ◌+◌, ◌<◌, get_or};
ghost use Rattle.stored.specs.Call.{slot_at, word_at, long_at, signed_at};

pub fn byte_at(call: &[u8], at: usize) -> u8
    ensures { result ≡ get_or call.now at 0 }
{
    if at < call.len() { call[at] } else { 0 }
}

#[tactic(auto, unfolding(crate::specs::Call::word_at))]
pub fn word_at(call: &[u8], at: usize) -> u32
    requires { at < 1152921504606846976 }
    ensures { result ≡ word_at call.now at }
{
    u32::from_be_bytes([
        byte_at(call, at),
        byte_at(call, at + 1),
        byte_at(call, at + 2),
        byte_at(call, at + 3),
    ])
}

pub fn long_at(call: &[u8], at: usize) -> u64
    requires { at + 4 < 1152921504606846976 }
    ensures { result ≡ long_at call.now at }
{
    u64::from(word_at(call, at)) * 4294967296 + u64::from(word_at(call, at + 4))
}

pub fn signed_at(call: &[u8], at: usize) -> i32
    requires { at < 1152921504606846976 }
    ensures { result ≡ signed_at call.now at }
{
    word_at(call, at).cast_signed()
}

// Where slot k stands: after the entry's number, the reply and where the answers begin.
pub fn slot(k: u8) -> usize
    ensures { (result ≡ slot_at k) × (result < 4096) }
{
    6 + 8 * usize::from(k)
}
