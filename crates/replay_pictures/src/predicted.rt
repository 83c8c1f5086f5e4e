// The entries that search for a macroblock, predict it and code it.
use crate::lent::Lent;
use crate::run;

pub fn code_predicted_macroblock(call: &[u8]) -> bool {
    let mut lent = Lent::full();
    let reply = hencouch::whole::hencouch_code_predicted_macroblock(
        stored::word(call, 0),
        stored::word(call, 1),
        stored::word(call, 2),
        stored::word(call, 3),
        stored::byte(call, 4),
        stored::word(call, 5),
        stored::word(call, 6),
        stored::byte(call, 7),
        stored::area(call, 8),
        stored::area(call, 10),
        stored::area(call, 12),
        stored::size(call, 14),
        stored::size(call, 15),
        stored::size(call, 16),
        stored::size(call, 17),
        stored::area(call, 18),
        stored::area(call, 20),
        stored::area(call, 22),
        stored::size(call, 24),
        stored::size(call, 25),
        stored::size(call, 26),
        stored::size(call, 27),
        stored::area(call, 28),
        stored::lent::cut(call, 30, &mut lent.lasts),
        stored::lent::cut(call, 32, &mut lent.runs),
        stored::lent::cut(call, 34, &mut lent.levels),
        &mut lent.vector,
        &mut lent.sum,
        &mut lent.vectors,
        &mut lent.sums,
        &mut lent.patterns,
        &mut lent.counts,
    );
    let same = lent.is_same(call, 30);
    stored::same(call, reply, same)
}

pub fn step_predicted(call: &[u8]) -> bool {
    let mut run = stored::five(call, 0);
    let mut lent = Lent::full();
    let reply = hencouch::run::hencouch_step_predicted(
        &mut run,
        stored::word(call, 4),
        stored::word(call, 5),
        stored::word(call, 6),
        stored::word(call, 7),
        stored::byte(call, 8),
        stored::word(call, 9),
        stored::word(call, 10),
        stored::byte(call, 11),
        stored::area(call, 12),
        stored::area(call, 14),
        stored::area(call, 16),
        stored::size(call, 18),
        stored::size(call, 19),
        stored::size(call, 20),
        stored::size(call, 21),
        stored::area(call, 22),
        stored::area(call, 24),
        stored::area(call, 26),
        stored::size(call, 28),
        stored::size(call, 29),
        stored::area(call, 30),
        stored::lent::cut(call, 32, &mut lent.lasts),
        stored::lent::cut(call, 34, &mut lent.runs),
        stored::lent::cut(call, 36, &mut lent.levels),
        &mut lent.vector,
        &mut lent.sum,
        &mut lent.vectors,
        &mut lent.sums,
        &mut lent.patterns,
        &mut lent.counts,
    );
    let same = lent.is_same(call, 32) && run::run_kept(call, run);
    stored::same(call, reply, same)
}
