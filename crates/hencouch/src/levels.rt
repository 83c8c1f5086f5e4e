// Levels, scans and events.
ghost use Rattle.std.specs.Prelude.{◌≡◌, length};
ghost use Rattle.refusal.specs.Number.{code_of};
ghost use Rattle.refusal.specs.Reply.{done};
ghost use Rattle.quantise.specs.Block.{block_levels, second_inverse, block_inverse, quantise_reply, inverse_reply};
ghost use Rattle.scan.specs.Event.{events_of, lasts_area, runs_area, levels_area};
ghost use Rattle.scan.specs.Grid.{grid_of, inter_scan, scanned, unscanned};
ghost use Rattle.scan.specs.Reply.{scan_reply, events_reply};
ghost use Rattle.areas.specs.Numbers.{is_set};

// 10, 11, 12, 13. Any first_method but 0 is the first method.
pub fn hencouch_quantise_block(
    coefficients: &[i32],
    quantiser: u32,
    first_method: u8,
    weights: &[u8],
    out: &mut [i32],
) -> u8
    ensures { let first = is_set first_method in
        let reply = quantise_reply coefficients.now quantiser first weights.now (length out.old) in
        let block = block_levels first quantiser weights.now coefficients.now in
        (result ≡ code_of reply) × (out.new ≡ done reply block out.old) }
{
    let first = areas::numbers::is_set(first_method);
    let reply = quantise::quantise_block(coefficients, quantiser, first, weights, out);
    refusal::code(reply)
}

// 10, 12, 13.
pub fn hencouch_inverse_block(levels: &[i32], quantiser: u32, out: &mut [i32]) -> u8
    ensures { let reply = inverse_reply levels.now quantiser (length out.old) in
        let block = block_inverse (second_inverse quantiser) levels.now in
        (result ≡ code_of reply) × (out.new ≡ done reply block out.old) }
{
    let reply = quantise::inverse_block(levels, quantiser, out);
    refusal::code(reply)
}

// 12, 13, 14.
pub fn hencouch_forward_scan(levels: &[i32], scan: u32, out: &mut [i32]) -> u8
    ensures { let reply = scan_reply levels.now scan (length out.old) in
        (result ≡ code_of reply) × (out.new ≡ done reply (scanned (grid_of scan) levels.now) out.old) }
{
    let reply = scan::forward_scan(levels, scan, out);
    refusal::code(reply)
}

// 12, 13, 14.
pub fn hencouch_inverse_scan(levels: &[i32], scan: u32, out: &mut [i32]) -> u8
    ensures { let reply = scan_reply levels.now scan (length out.old) in
        (result ≡ code_of reply) × (out.new ≡ done reply (unscanned (grid_of scan) levels.now) out.old) }
{
    let reply = scan::inverse_scan(levels, scan, out);
    refusal::code(reply)
}

// 12, 13. The count of events goes to *count; where the call is turned back, it stays as it is.
pub fn hencouch_levels_to_events(
    levels: &[i32],
    lasts: &mut [u8],
    runs: &mut [u8],
    out_levels: &mut [i32],
    count: &mut u8,
) -> u8
    ensures { let given = levels.now in
        let reply = events_reply given (length lasts.old) (length runs.old) (length out_levels.old) in
        (result ≡ code_of reply)
        × (lasts.new ≡ done reply (lasts_area given) lasts.old)
        × (runs.new ≡ done reply (runs_area given) runs.old)
        × (out_levels.new ≡ done reply (levels_area given) out_levels.old)
        × (count.new ≡ done reply (length (events_of given)) count.old) }
{
    let told = scan::levels_to_events(levels, lasts, runs, out_levels);
    areas::records::write(told, count)
}

// The scan number of an inter block's scan: any number but 0 is yes. Never refused.
pub fn hencouch_inter_scan(interlaced: u8, alternate_scan: u8, scan: &mut u32) -> u8
    ensures value { result ≡ 0 }
    ensures scan_after { scan.new ≡ inter_scan (is_set interlaced) (is_set alternate_scan) }
{
    let fields = areas::numbers::is_set(interlaced);
    let alternate = areas::numbers::is_set(alternate_scan);
    *scan = scan::inter_scan(fields, alternate);
    0
}
