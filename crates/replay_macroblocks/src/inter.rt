// The parts of an inter macroblock: activity, residual, events, patterns.

pub fn intra_activity(call: &[u8]) -> bool {
    let mut activity: u32 = 2779096485;
    let reply = hencouch::inter::hencouch_intra_activity(
        stored::area(call, 0),
        stored::size(call, 2),
        stored::size(call, 3),
        stored::size(call, 4),
        stored::size(call, 5),
        &mut activity,
    );
    stored::same(call, reply, stored::area_same(call, 6, &[activity]))
}

pub fn macroblock_residual(call: &[u8]) -> bool {
    let mut out = stored::lent::full::<i32>();
    let reply = hencouch::inter::hencouch_macroblock_residual(
        stored::area(call, 0),
        stored::area(call, 2),
        stored::area(call, 4),
        stored::size(call, 6),
        stored::size(call, 7),
        stored::size(call, 8),
        stored::size(call, 9),
        stored::area(call, 10),
        stored::area(call, 12),
        stored::area(call, 14),
        stored::lent::cut(call, 16, &mut out),
    );
    stored::same(call, reply, stored::area_same(call, 16, &out))
}

pub fn quantise_inter_block(call: &[u8]) -> bool {
    let residual = stored::signeds(call, 0);
    let mut lasts = stored::lent::full::<u8>();
    let mut runs = stored::lent::full::<u8>();
    let mut levels = stored::lent::full::<i32>();
    let mut count: u8 = 165;
    let reply = hencouch::inter::hencouch_quantise_inter_block(
        stored::signed_area(call, 0, &residual),
        stored::word(call, 2),
        stored::byte(call, 3),
        stored::area(call, 4),
        stored::word(call, 6),
        stored::lent::cut(call, 7, &mut lasts),
        stored::lent::cut(call, 9, &mut runs),
        stored::lent::cut(call, 11, &mut levels),
        &mut count,
    );
    let first = stored::lent::events_same(call, [7, 9, 11], &lasts, &runs, &levels);
    let second = stored::area_same(call, 13, &[count]);
    stored::same(call, reply, first && second)
}

pub fn quantise_inter_residual(call: &[u8]) -> bool {
    let residual = stored::signeds(call, 0);
    let mut lasts = stored::lent::full::<u8>();
    let mut runs = stored::lent::full::<u8>();
    let mut levels = stored::lent::full::<i32>();
    let mut counts = [165u8; 6];
    let reply = hencouch::inter::hencouch_quantise_inter_residual(
        stored::signed_area(call, 0, &residual),
        stored::word(call, 2),
        stored::byte(call, 3),
        stored::area(call, 4),
        stored::word(call, 6),
        stored::lent::cut(call, 7, &mut lasts),
        stored::lent::cut(call, 9, &mut runs),
        stored::lent::cut(call, 11, &mut levels),
        &mut counts,
    );
    let first = stored::lent::events_same(call, [7, 9, 11], &lasts, &runs, &levels);
    let second = stored::area_same(call, 13, &counts);
    stored::same(call, reply, first && second)
}

pub fn inter_cbp(call: &[u8]) -> bool {
    let counts = stored::six(call, 0);
    let mut patterns = [165u8; 2];
    let reply = hencouch::inter::hencouch_inter_cbp(&counts, &mut patterns);
    stored::same(call, reply, stored::area_same(call, 2, &patterns))
}
