// Interpolation: blocks, one sample, and the split of a vector component.

pub fn interpolate_block_into(call: &[u8]) -> bool {
    let mut out = stored::lent::full::<u8>();
    let reply = hencouch::sample::hencouch_interpolate_block_into(
        stored::area(call, 0),
        stored::size(call, 2),
        stored::size(call, 3),
        stored::size(call, 4),
        stored::signed(call, 5),
        stored::signed(call, 6),
        stored::signed(call, 7),
        stored::signed(call, 8),
        stored::size(call, 9),
        stored::size(call, 10),
        stored::byte(call, 11),
        stored::lent::cut(call, 12, &mut out),
    );
    stored::same(call, reply, stored::area_same(call, 12, &out))
}

pub fn interpolate_block_qpel_into(call: &[u8]) -> bool {
    let mut out = stored::lent::full::<u8>();
    let reply = hencouch::sample::hencouch_interpolate_block_qpel_into(
        stored::area(call, 0),
        stored::size(call, 2),
        stored::size(call, 3),
        stored::size(call, 4),
        stored::signed(call, 5),
        stored::signed(call, 6),
        stored::signed(call, 7),
        stored::signed(call, 8),
        stored::size(call, 9),
        stored::size(call, 10),
        stored::byte(call, 11),
        stored::word(call, 12),
        stored::lent::cut(call, 13, &mut out),
    );
    stored::same(call, reply, stored::area_same(call, 13, &out))
}

pub fn interpolate_pixel(call: &[u8]) -> bool {
    let mut sample: u8 = 165;
    let reply = hencouch::sample::hencouch_interpolate_pixel(
        stored::byte(call, 0),
        stored::byte(call, 1),
        stored::byte(call, 2),
        stored::byte(call, 3),
        stored::byte(call, 4),
        stored::byte(call, 5),
        stored::byte(call, 6),
        &mut sample,
    );
    stored::same(call, reply, stored::area_same(call, 7, &[sample]))
}

pub fn split_half_pel(call: &[u8]) -> bool {
    let mut whole: i32 = -1515870811;
    let mut half: u8 = 165;
    let mv = stored::signed(call, 0);
    let reply = hencouch::sample::hencouch_split_half_pel(mv, &mut whole, &mut half);
    let first = stored::area_same(call, 1, &[whole]);
    let second = stored::area_same(call, 3, &[half]);
    stored::same(call, reply, first && second)
}

pub fn split_quarter_pel(call: &[u8]) -> bool {
    let mut whole: i32 = -1515870811;
    let mut fraction: u8 = 165;
    let mv = stored::signed(call, 0);
    let reply = hencouch::sample::hencouch_split_quarter_pel(mv, &mut whole, &mut fraction);
    let first = stored::area_same(call, 1, &[whole]);
    let second = stored::area_same(call, 3, &[fraction]);
    stored::same(call, reply, first && second)
}
