// A picture's run, without its steps.

pub fn open(call: &[u8]) -> bool {
    let mut run = [11936128518282651045u64; 5];
    let width = stored::size(call, 0);
    let height = stored::size(call, 1);
    let reply = hencouch::run::hencouch_open(width, height, &mut run);
    stored::same(call, reply, stored::area_same(call, 2, &run))
}

pub fn next_place(call: &[u8]) -> bool {
    let run = stored::five(call, 0);
    let mut place = [11936128518282651045u64; 2];
    let reply = hencouch::run::hencouch_next_place(&run, &mut place);
    stored::same(call, reply, stored::area_same(call, 2, &place))
}

pub fn close(call: &[u8]) -> bool {
    let run = stored::five(call, 0);
    let mut totals = [11936128518282651045u64; 3];
    let reply = hencouch::run::hencouch_close(&run, &mut totals);
    stored::same(call, reply, stored::area_same(call, 2, &totals))
}

// A step's run: the answer, or what it was where the step is refused.
pub fn run_kept(call: &[u8], run: [u64; 5]) -> bool {
    if stored::reply(call) == 0 {
        return stored::area_same(call, 2, &run);
    }
    run == stored::five(call, 0)
}
