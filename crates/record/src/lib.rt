// What coder and reader both hold: a motion vector, and the record of a macroblock.
#![tactic(auto)]

ghost use Rattle.std.specs.Prelude.{◌≡◌};
ghost use Rattle.record.specs.Zero.{zero_vector, no_record};
ghost use Rattle.record.specs.Pattern.{worth, is_coded};
ghost use Rattle.record.specs.Count.{events_in, four_total};

// In half or quarter samples, as the mode has it.
#[derive(Clone, Copy, Debug, Default, PartialEq, Eq)]
pub struct MotionVector {
    pub x: i32,
    pub y: i32,
}

// A macroblock as it is coded: the one vector and its sum; the four vectors and theirs, all 0 where four were not searched for;
// block 0 is the luma pattern's bit worth 8, Cb the chroma pattern's bit worth 2; how many events each of the six blocks has.
#[derive(Clone, Copy, Debug, PartialEq, Eq)]
pub struct Record {
    pub vector: MotionVector,
    pub sum: u32,
    pub vectors: [MotionVector; 4],
    pub sums: [u32; 4],
    pub luma_pattern: u8,
    pub chroma_pattern: u8,
    pub counts: [u8; 6],
}

pub fn zero_vector() -> MotionVector
    ensures { result ≡ zero_vector }
{
    MotionVector::default()
}

// 0 throughout: what demand 3 takes for the record of a refused call.
pub fn no_record() -> Record
    ensures { result ≡ no_record }
{
    let zero = zero_vector();
    Record {
        vector: zero,
        sum: 0,
        vectors: [zero; 4],
        sums: [0; 4],
        luma_pattern: 0,
        chroma_pattern: 0,
        counts: [0; 6],
    }
}

// What a block's bit is worth in its pattern.
fn worth(block: usize) -> u8
    ensures { result ≡ worth block }
{
    match block {
        0 => 8,
        1 => 4,
        2 => 2,
        3 => 1,
        4 => 2,
        5 => 1,
        _ => 0,
    }
}

// Whether a block has an event: blocks 0 to 3 are luma's, 4 is Cb, 5 is Cr, and there are no others.
pub fn is_coded(given: Record, block: usize) -> bool
    ensures { result ≡ is_coded given block }
{
    let pattern = if block < 4 {
        given.luma_pattern
    } else {
        given.chroma_pattern
    };
    pattern & worth(block) != 0
}

// The events of a macroblock's six blocks.
pub fn event_count(counts: [u8; 6]) -> u64
    ensures { result ≡ events_in counts }
{
    let luma = u64::from(counts[0])
        + u64::from(counts[1])
        + u64::from(counts[2])
        + u64::from(counts[3]);
    luma + u64::from(counts[4]) + u64::from(counts[5])
}

// The total of the four vectors' sums.
pub fn four_total(sums: [u32; 4]) -> u64
    ensures { result ≡ four_total sums }
{
    u64::from(sums[0]) + u64::from(sums[1]) + u64::from(sums[2]) + u64::from(sums[3])
}
