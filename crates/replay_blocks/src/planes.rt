// A macroblock's three planes, predicted by one vector and by four.

fn planes_same(call: &[u8], y: &[u8; 400], cb: &[u8; 400], cr: &[u8; 400]) -> bool {
    let first = stored::area_same(call, 17, y);
    let second = stored::area_same(call, 19, cb);
    let third = stored::area_same(call, 21, cr);
    first && second && third
}

fn call_predict_macroblock(call: &[u8], y: &mut [u8], cb: &mut [u8], cr: &mut [u8]) -> u8 {
    hencouch::samples::hencouch_predict_macroblock(
        stored::area(call, 0),
        stored::area(call, 2),
        stored::area(call, 4),
        stored::size(call, 6),
        stored::size(call, 7),
        stored::size(call, 8),
        stored::size(call, 9),
        stored::word(call, 10),
        stored::word(call, 11),
        stored::signed(call, 12),
        stored::signed(call, 13),
        stored::size(call, 14),
        stored::size(call, 15),
        stored::byte(call, 16),
        y,
        cb,
        cr,
    )
}

pub fn predict_macroblock(call: &[u8]) -> bool {
    let mut y = stored::lent::full::<u8>();
    let mut cb = stored::lent::full::<u8>();
    let mut cr = stored::lent::full::<u8>();
    let reply = call_predict_macroblock(
        call,
        stored::lent::cut(call, 17, &mut y),
        stored::lent::cut(call, 19, &mut cb),
        stored::lent::cut(call, 21, &mut cr),
    );
    stored::same(call, reply, planes_same(call, &y, &cb, &cr))
}

fn call_predict_macroblock_4mv(call: &[u8], y: &mut [u8], cb: &mut [u8], cr: &mut [u8]) -> u8 {
    let vectors = crate::luma::eight(stored::signeds(call, 12));
    hencouch::samples::hencouch_predict_macroblock_4mv(
        stored::area(call, 0),
        stored::area(call, 2),
        stored::area(call, 4),
        stored::size(call, 6),
        stored::size(call, 7),
        stored::size(call, 8),
        stored::size(call, 9),
        stored::word(call, 10),
        stored::word(call, 11),
        &vectors,
        stored::size(call, 14),
        stored::size(call, 15),
        stored::byte(call, 16),
        y,
        cb,
        cr,
    )
}

pub fn predict_macroblock_4mv(call: &[u8]) -> bool {
    let mut y = stored::lent::full::<u8>();
    let mut cb = stored::lent::full::<u8>();
    let mut cr = stored::lent::full::<u8>();
    let reply = call_predict_macroblock_4mv(
        call,
        stored::lent::cut(call, 17, &mut y),
        stored::lent::cut(call, 19, &mut cb),
        stored::lent::cut(call, 21, &mut cr),
    );
    stored::same(call, reply, planes_same(call, &y, &cb, &cr))
}
