// What a macroblock's events and its record are written into.
ghost use Rattle.std.specs.Prelude.{◌≤◌};

#[derive(Drop)]
pub struct Lent {
    pub lasts: [u8; 400],
    pub runs: [u8; 400],
    pub levels: [i32; 400],
    pub vector: [i32; 2],
    pub sum: u32,
    pub vectors: [i32; 8],
    pub sums: [u32; 4],
    pub patterns: [u8; 2],
    pub counts: [u8; 6],
}

impl Lent {
    pub fn full() -> Lent {
        Lent {
            lasts: [165; 400],
            runs: [165; 400],
            levels: [-1515870811; 400],
            vector: [-1515870811; 2],
            sum: 2779096485,
            vectors: [-1515870811; 8],
            sums: [2779096485; 4],
            patterns: [165; 2],
            counts: [165; 6],
        }
    }

    // Whether all is the stored, in areas one after the other from slot k on.
    pub fn is_same(&self, call: &[u8], k: u8) -> bool
        requires { k ≤ 100 }
    {
        let events = stored::lent::events_same(
            call,
            [k, k + 2, k + 4],
            &self.lasts,
            &self.runs,
            &self.levels,
        );
        let vector = stored::area_same(call, k + 6, &self.vector);
        let sum = stored::area_same(call, k + 8, &[self.sum]);
        let vectors = stored::area_same(call, k + 10, &self.vectors);
        let sums = stored::area_same(call, k + 12, &self.sums);
        let patterns = stored::area_same(call, k + 14, &self.patterns);
        let counts = stored::area_same(call, k + 16, &self.counts);
        events && vector && sum && vectors && sums && patterns && counts
    }
}
