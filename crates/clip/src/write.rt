// A line that grows word by word, where it lies: its bytes stand in itself, and are not copied for a word more.
ghost use Rattle.std.specs.Prelude.{◌≡◌, [], ◌∷◌, ◌≤◌, length};
ghost use Rattle.clip.specs.Decimal.{decimal, decimal_z};
ghost use Rattle.clip.specs.ToldPush.{pushes};
ghost use Rattle.clip.specs.Line.{spaced, vector_words};

use itoa::Buffer;
use record::MotionVector;
use std::marker::Model;

// The bytes of a line, which contracts see as their list: the first `len`, and the rest is 0. No line is longer (proofs/Room.antt).
#[derive(Clone, Copy)]
pub struct Text {
    bytes: [u8; 198],
    len: usize,
}

impl Model for Text {
    ghost use Rattle.std.specs.Prelude.{List, ℕ};

    ghost Value = { List ℕ };

    ghost use Rattle.clip.specs.Text.{text_of, taken, IsText, text_back};

    ghost view = { taken };

    ghost invariant = { IsText };

    ghost inverse = { text_of };

    ghost inverse_ok = { text_back };
}

impl Text {
    pub(crate) fn new() -> Text
        ensures { result ≡ [] }
    {
        Text {
            bytes: [0; 198],
            len: 0,
        }
    }

    pub fn as_bytes(&self) -> &[u8]
        ensures bytes { result.now ≡ self.now }
        ensures short { length result.now ≤ 198 }
    {
        &self.bytes[..self.len]
    }

    // As many bytes more as there is room for.
    pub(crate) fn push_all(&mut self, s: &[u8])
        ensures { self.new ≡ pushes self.old s.now }
    {
        let n = s.len().min(198 - self.len);
        let end = self.len + n;
        self.bytes[self.len..end].copy_from_slice(&s[..n]);
        self.len = end;
    }

    #[tactic(auto, using(crate::proofs::Printed::printed_is))]
    pub(crate) fn number(&mut self, n: u64)
        ensures { self.new ≡ pushes self.old (decimal n) }
    {
        let mut digits = Buffer::new();
        self.push_all(digits.format(n).as_bytes());
    }

    #[tactic(auto, using(crate::proofs::Printed::signed_is))]
    fn signed(&mut self, x: i32)
        ensures { self.new ≡ pushes self.old (decimal_z x) }
    {
        let mut digits = Buffer::new();
        self.push_all(digits.format(x).as_bytes());
    }

    #[tactic(auto, using(crate::proofs::Lines::word_is_lem))]
    pub(crate) fn word(&mut self, n: u64)
        ensures { self.new ≡ pushes self.old (spaced (decimal n ∷ [])) }
    {
        self.push_all(b" ");
        self.number(n);
    }

    #[tactic(auto, using(crate::proofs::Lines::word_is_lem))]
    fn signed_word(&mut self, x: i32)
        ensures { self.new ≡ pushes self.old (spaced (decimal_z x ∷ [])) }
    {
        self.push_all(b" ");
        self.signed(x);
    }

    // Horizontal, then vertical.
    #[tactic(auto, using(crate::proofs::Lines::spaced_two))]
    pub(crate) fn vector_words(&mut self, v: MotionVector)
        ensures { self.new ≡ pushes self.old (spaced (vector_words v)) }
    {
        self.signed_word(v.x);
        self.signed_word(v.y);
    }
}
