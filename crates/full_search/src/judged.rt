// What the private searches take: a block that no refusal has stopped. The type says so, and no contract has to tell it again.
ghost use Rattle.full_search.specs.Told.{Ready};

use crate::Sought;

// A block that is searched for: of side 8 or 16, with all its samples, in a reference that can be used, at a corner that a search takes.
#[derive(Clone, Copy)]
pub struct Judged<'a> {
    pub sought: Sought<'a>,
    ghost ready: { Ready sought.source.now sought.reference.now sought.target },
}
