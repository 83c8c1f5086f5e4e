// Stored calls of the entries for samples, blocks, levels, events and a macroblock's prediction, each made again: whether the reply and
// all that was lent are the stored ones. Every lent area is full of the bytes 0xa5 before its call, and has room past its end, which has
// to stay so.
#![tactic(auto)]

ghost use Rattle.std.specs.Prelude.{◌≡◌, false, get_or};
ghost use Rattle.refusal.specs.Test.{between};
ghost use Rattle.replay_blocks.specs.Entries.{is_own};

mod chroma;
mod levels;
mod luma;
mod planes;
mod sample;
mod source;

// The entries 1 to 10, by the header's order.
fn of_samples(call: &[u8], entry: u8) -> bool
    ensures { between 1 10 entry ≡ false → result ≡ false }
{
    match entry {
        1 => sample::interpolate_block_into(call),
        2 => sample::interpolate_block_qpel_into(call),
        3 => sample::interpolate_pixel(call),
        4 => sample::split_half_pel(call),
        5 => sample::split_quarter_pel(call),
        6 => source::fetch_clamped(call),
        7 => source::copy_block(call),
        8 => luma::predict_luma_block(call),
        9 => luma::predict_luma_macroblock(call),
        10 => luma::predict_luma_macroblock_4mv(call),
        _ => false,
    }
}

// The entries 1 to 19 and 32 to 35: false for any other.
pub fn replay(call: &[u8]) -> bool
    ensures { is_own (get_or call.now 0 0) ≡ false → result ≡ false }
{
    let entry = stored::entry(call);
    match entry {
        11 => levels::forward_dct_8x8(call),
        12 => levels::quantise_block(call),
        13 => levels::inverse_block(call),
        14 => levels::forward_scan(call),
        15 => levels::inverse_scan(call),
        16 => levels::levels_to_events(call),
        17 => levels::inter_scan(call),
        18 => source::source_luma_block(call),
        19 => source::source_chroma_block(call),
        32 => chroma::chroma_vector(call),
        33 => chroma::chroma_vector_4mv(call),
        34 => planes::predict_macroblock(call),
        35 => planes::predict_macroblock_4mv(call),
        _ => of_samples(call, entry),
    }
}
