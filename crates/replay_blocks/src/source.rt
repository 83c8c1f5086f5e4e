// Samples as they are: of a reference plane and of the source picture.

pub fn fetch_clamped(call: &[u8]) -> bool {
    let mut sample: u8 = 165;
    let reply = hencouch::copied::hencouch_fetch_clamped(
        stored::area(call, 0),
        stored::size(call, 2),
        stored::size(call, 3),
        stored::size(call, 4),
        stored::signed(call, 5),
        stored::signed(call, 6),
        &mut sample,
    );
    stored::same(call, reply, stored::area_same(call, 7, &[sample]))
}

pub fn copy_block(call: &[u8]) -> bool {
    let mut out = stored::lent::full::<u8>();
    let reply = hencouch::copied::hencouch_copy_block(
        stored::area(call, 0),
        stored::size(call, 2),
        stored::size(call, 3),
        stored::size(call, 4),
        stored::signed(call, 5),
        stored::signed(call, 6),
        stored::size(call, 7),
        stored::size(call, 8),
        stored::lent::cut(call, 9, &mut out),
    );
    stored::same(call, reply, stored::area_same(call, 9, &out))
}

pub fn source_luma_block(call: &[u8]) -> bool {
    let mut out = stored::lent::full::<u8>();
    let reply = hencouch::copied::hencouch_source_luma_block(
        stored::area(call, 0),
        stored::size(call, 2),
        stored::size(call, 3),
        stored::size(call, 4),
        stored::size(call, 5),
        stored::lent::cut(call, 6, &mut out),
    );
    stored::same(call, reply, stored::area_same(call, 6, &out))
}

pub fn source_chroma_block(call: &[u8]) -> bool {
    let mut out = stored::lent::full::<u8>();
    let reply = hencouch::copied::hencouch_source_chroma_block(
        stored::area(call, 0),
        stored::size(call, 2),
        stored::size(call, 3),
        stored::size(call, 4),
        stored::size(call, 5),
        stored::lent::cut(call, 6, &mut out),
    );
    stored::same(call, reply, stored::area_same(call, 6, &out))
}
