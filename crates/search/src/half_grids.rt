// What the half ring is summed on, where that is by windows. In a file of its own, since a ghost field's file cites nothing that names
// its struct.
ghost use Rattle.search.specs.ToldGrids.{Grids};

// A source block of this side, and three grids of the samples between those of a patch of the reference: half a sample to the right,
// below, and both.
#[derive(Clone, Copy)]
pub struct HalfGrids<'a> {
    pub source: &'a [u8],
    pub side: usize,
    pub right: &'a [u8],
    pub under: &'a [u8],
    pub diagonal: &'a [u8],
    pub ghost fits: { Grids side source.now right.now under.now diagonal.now },
}
