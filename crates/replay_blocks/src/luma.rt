// Luma prediction in either mode: a block, and a macroblock by one vector and by four.

pub fn predict_luma_block(call: &[u8]) -> bool {
    let mut out = stored::lent::full::<u8>();
    let reply = hencouch::predicted::hencouch_predict_luma_block(
        stored::area(call, 0),
        stored::size(call, 2),
        stored::size(call, 3),
        stored::size(call, 4),
        stored::word(call, 5),
        stored::word(call, 6),
        stored::signed(call, 7),
        stored::signed(call, 8),
        stored::signed(call, 9),
        stored::signed(call, 10),
        stored::size(call, 11),
        stored::size(call, 12),
        stored::byte(call, 13),
        stored::lent::cut(call, 14, &mut out),
    );
    stored::same(call, reply, stored::area_same(call, 14, &out))
}

pub fn predict_luma_macroblock(call: &[u8]) -> bool {
    let mut out = stored::lent::full::<u8>();
    let reply = hencouch::predicted::hencouch_predict_luma_macroblock(
        stored::area(call, 0),
        stored::size(call, 2),
        stored::size(call, 3),
        stored::size(call, 4),
        stored::word(call, 5),
        stored::word(call, 6),
        stored::signed(call, 7),
        stored::signed(call, 8),
        stored::signed(call, 9),
        stored::signed(call, 10),
        stored::byte(call, 11),
        stored::lent::cut(call, 12, &mut out),
    );
    stored::same(call, reply, stored::area_same(call, 12, &out))
}

// The first eight.
pub fn eight(v: [i32; 400]) -> [i32; 8] {
    [v[0], v[1], v[2], v[3], v[4], v[5], v[6], v[7]]
}

pub fn predict_luma_macroblock_4mv(call: &[u8]) -> bool {
    let vectors = eight(stored::signeds(call, 7));
    let mut out = stored::lent::full::<u8>();
    let reply = hencouch::predicted::hencouch_predict_luma_macroblock_4mv(
        stored::area(call, 0),
        stored::size(call, 2),
        stored::size(call, 3),
        stored::size(call, 4),
        stored::word(call, 5),
        stored::word(call, 6),
        &vectors,
        stored::signed(call, 9),
        stored::signed(call, 10),
        stored::byte(call, 11),
        stored::lent::cut(call, 12, &mut out),
    );
    stored::same(call, reply, stored::area_same(call, 12, &out))
}
