// The transform, levels, scans and events.

pub fn forward_dct_8x8(call: &[u8]) -> bool {
    let residual = stored::signeds(call, 0);
    let mut out = stored::lent::full::<i32>();
    let reply = hencouch::transform::hencouch_forward_dct_8x8(
        stored::signed_area(call, 0, &residual),
        stored::lent::cut(call, 2, &mut out),
    );
    stored::same(call, reply, stored::area_same(call, 2, &out))
}

pub fn quantise_block(call: &[u8]) -> bool {
    let coefficients = stored::signeds(call, 0);
    let mut out = stored::lent::full::<i32>();
    let reply = hencouch::levels::hencouch_quantise_block(
        stored::signed_area(call, 0, &coefficients),
        stored::word(call, 2),
        stored::byte(call, 3),
        stored::area(call, 4),
        stored::lent::cut(call, 6, &mut out),
    );
    stored::same(call, reply, stored::area_same(call, 6, &out))
}

pub fn inverse_block(call: &[u8]) -> bool {
    let levels = stored::signeds(call, 0);
    let quantiser = stored::word(call, 2);
    let mut out = stored::lent::full::<i32>();
    let reply = hencouch::levels::hencouch_inverse_block(
        stored::signed_area(call, 0, &levels),
        quantiser,
        stored::lent::cut(call, 3, &mut out),
    );
    stored::same(call, reply, stored::area_same(call, 3, &out))
}

pub fn forward_scan(call: &[u8]) -> bool {
    let levels = stored::signeds(call, 0);
    let scan = stored::word(call, 2);
    let mut out = stored::lent::full::<i32>();
    let reply = hencouch::levels::hencouch_forward_scan(
        stored::signed_area(call, 0, &levels),
        scan,
        stored::lent::cut(call, 3, &mut out),
    );
    stored::same(call, reply, stored::area_same(call, 3, &out))
}

pub fn inverse_scan(call: &[u8]) -> bool {
    let levels = stored::signeds(call, 0);
    let scan = stored::word(call, 2);
    let mut out = stored::lent::full::<i32>();
    let reply = hencouch::levels::hencouch_inverse_scan(
        stored::signed_area(call, 0, &levels),
        scan,
        stored::lent::cut(call, 3, &mut out),
    );
    stored::same(call, reply, stored::area_same(call, 3, &out))
}

pub fn levels_to_events(call: &[u8]) -> bool {
    let levels = stored::signeds(call, 0);
    let mut lasts = stored::lent::full::<u8>();
    let mut runs = stored::lent::full::<u8>();
    let mut out = stored::lent::full::<i32>();
    let mut count: u8 = 165;
    let reply = hencouch::levels::hencouch_levels_to_events(
        stored::signed_area(call, 0, &levels),
        stored::lent::cut(call, 2, &mut lasts),
        stored::lent::cut(call, 4, &mut runs),
        stored::lent::cut(call, 6, &mut out),
        &mut count,
    );
    let first = stored::lent::events_same(call, [2, 4, 6], &lasts, &runs, &out);
    let second = stored::area_same(call, 8, &[count]);
    stored::same(call, reply, first && second)
}

pub fn inter_scan(call: &[u8]) -> bool {
    let mut scan: u32 = 2779096485;
    let interlaced = stored::byte(call, 0);
    let alternate_scan = stored::byte(call, 1);
    let reply = hencouch::levels::hencouch_inter_scan(interlaced, alternate_scan, &mut scan);
    stored::same(call, reply, stored::area_same(call, 2, &[scan]))
}
