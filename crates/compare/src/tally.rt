// Every stored call, made again: how many of each entry have the stored answer, and how many of those are refused.

// By the entry's number, from 1.
const NAMES: [&str; 37] = [
    "interpolate_block_into",
    "interpolate_block_qpel_into",
    "interpolate_pixel",
    "split_half_pel",
    "split_quarter_pel",
    "fetch_clamped",
    "copy_block",
    "predict_luma_block",
    "predict_luma_macroblock",
    "predict_luma_macroblock_4mv",
    "forward_dct_8x8",
    "quantise_block",
    "inverse_block",
    "forward_scan",
    "inverse_scan",
    "levels_to_events",
    "inter_scan",
    "source_luma_block",
    "source_chroma_block",
    "estimate_motion",
    "estimate_motion_4mv",
    "intra_activity",
    "macroblock_residual",
    "quantise_inter_block",
    "quantise_inter_residual",
    "inter_cbp",
    "code_macroblock",
    "open",
    "next_place",
    "step",
    "close",
    "chroma_vector",
    "chroma_vector_4mv",
    "predict_macroblock",
    "predict_macroblock_4mv",
    "code_predicted_macroblock",
    "step_predicted",
];

// Of an entry.
#[derive(Clone, Copy)]
struct Count {
    equal: u64,
    refused: u64,
}

// By the entry's number; 0 is no entry.
#[derive(Clone, Copy)]
pub struct Tally {
    calls: u64,
    entries: [Count; 38],
}

fn replay(call: &[u8]) -> bool {
    match stored::entry(call) {
        0..=19 | 32..=35 => replay_blocks::replay(call),
        20..=26 => replay_macroblocks::replay(call),
        _ => replay_pictures::replay(call),
    }
}

fn count_call(tally: &mut Tally, call: &[u8]) {
    tally.calls = tally.calls.wrapping_add(1);
    if !replay(call) {
        return;
    }
    if let Some(entry) = tally.entries.get_mut(usize::from(stored::entry(call))) {
        entry.equal = entry.equal.wrapping_add(1);
        if stored::reply(call) != 0 {
            entry.refused = entry.refused.wrapping_add(1);
        }
    }
}

// The next call, of which none is longer than the room.
fn next(input: i32, room: &mut [u8; 16384]) -> Option<&[u8]> {
    let mut head = [0u8; 4];
    if io::read_full(input, &mut head) < 4 {
        return None;
    }
    let n = stored::length(&head) as usize;
    let call = stored::lent::front(room, n);
    if 0 < n && io::read_full(input, call) == n {
        Some(call)
    } else {
        None
    }
}

// The calls of a file, of which there are not more than a million.
pub fn replay_all(input: i32) -> Tally {
    let mut tally = Tally {
        calls: 0,
        entries: [Count {
            equal: 0,
            refused: 0,
        }; 38],
    };
    let mut room = [0u8; 16384];
    for _call in 0..1000000 {
        match next(input, &mut room) {
            Some(call) => count_call(&mut tally, call),
            None => return tally,
        }
    }
    tally
}

// A line an entry, then all the calls. A line that can't be written is passed over.
pub fn print_all(rt: &HostRuntime, tally: &Tally) {
    for (name, entry) in NAMES.iter().zip(&tally.entries[1..]) {
        let _ = println!(rt;
            "{name}: {} equal, {} of them refused",
            entry.equal, entry.refused
        );
    }
    let _ = println!(rt; "{} calls", tally.calls);
}
