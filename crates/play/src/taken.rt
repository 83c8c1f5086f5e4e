// A header that no refusal has stopped. The type says so, and no contract has to tell it again.
ghost use Rattle.std.specs.Prelude.{◌≡◌, Ok};
ghost use Rattle.clip.specs.Header.{head_reply};

use clip::Head;

#[derive(Clone, Copy)]
pub struct Taken {
    pub head: Head,
    ghost taken: { head_reply head ≡ Ok tt },
}
