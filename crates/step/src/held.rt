// The front of a line that has not ended: 13 bytes decide what any line asks for.
ghost use Rattle.std.specs.Prelude.{◌≡◌, [], length, eqb};
ghost use Rattle.calls.specs.Line.{call_of};
ghost use Rattle.step.specs.Session.{keeping};

use arrayvec::ArrayVec;
use calls::{BadLine, Call};
use std::marker::Model;

#[derive(Drop)]
pub(crate) struct Held {
    bytes: ArrayVec<u8, 13>,
}

// Clauses see the bytes that are kept, of which `keeping` and `call_of` speak.
impl Model for Held {
    ghost use Rattle.std.specs.Prelude.{List, ℕ};

    ghost Value = { List ℕ };

    ghost view = { λ h. h.bytes.items };
}

impl Held {
    // No byte of a line.
    pub(crate) fn new() -> Held
        ensures { result ≡ [] }
    {
        Held {
            bytes: ArrayVec::new(),
        }
    }

    // One byte more of the line.
    #[tactic(auto, using(crate::proofs::Lines::keep_pushed, crate::proofs::Lines::keep_full))]
    pub(crate) fn keep(&mut self, byte: u8)
        ensures { self.new ≡ keeping self.old byte }
    {
        if self.bytes.len() < 13 {
            self.bytes.push(byte);
        }
    }

    pub(crate) fn is_empty(&self) -> bool
        ensures { result ≡ eqb (length self.now) 0 }
    {
        self.bytes.is_empty()
    }

    // What the line asks for.
    pub(crate) fn asked(&self) -> Result<Call, BadLine>
        ensures { result ≡ call_of self.now }
    {
        calls::call_of(self.bytes.as_slice())
    }
}
