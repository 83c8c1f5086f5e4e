// Motion search.

pub fn estimate_motion(call: &[u8]) -> bool {
    let mut vector = stored::lent::full::<i32>();
    let mut sum = stored::lent::full::<u32>();
    let reply = hencouch::motion::hencouch_estimate_motion(
        stored::area(call, 0),
        stored::size(call, 2),
        stored::size(call, 3),
        stored::size(call, 4),
        stored::size(call, 5),
        stored::area(call, 6),
        stored::size(call, 8),
        stored::size(call, 9),
        stored::size(call, 10),
        stored::word(call, 11),
        stored::word(call, 12),
        stored::word(call, 13),
        stored::lent::cut(call, 14, &mut vector),
        stored::lent::cut(call, 16, &mut sum),
    );
    let first = stored::area_same(call, 14, &vector);
    let second = stored::area_same(call, 16, &sum);
    stored::same(call, reply, first && second)
}

fn call_estimate_motion_4mv(call: &[u8], vectors: &mut [i32], sums: &mut [u32]) -> u8 {
    hencouch::motion::hencouch_estimate_motion_4mv(
        stored::area(call, 0),
        stored::size(call, 2),
        stored::size(call, 3),
        stored::size(call, 4),
        stored::size(call, 5),
        stored::area(call, 6),
        stored::size(call, 8),
        stored::size(call, 9),
        stored::size(call, 10),
        stored::word(call, 11),
        stored::word(call, 12),
        stored::word(call, 13),
        stored::signed(call, 14),
        stored::signed(call, 15),
        vectors,
        sums,
    )
}

pub fn estimate_motion_4mv(call: &[u8]) -> bool {
    let mut vectors = stored::lent::full::<i32>();
    let mut sums = stored::lent::full::<u32>();
    let reply = call_estimate_motion_4mv(
        call,
        stored::lent::cut(call, 16, &mut vectors),
        stored::lent::cut(call, 18, &mut sums),
    );
    let first = stored::area_same(call, 16, &vectors);
    let second = stored::area_same(call, 18, &sums);
    stored::same(call, reply, first && second)
}
