//! The generator of the numbers that a trial draws.
ghost use Rattle.std.specs.Prelude.{◌≡◌, IfOk, OnOk};
ghost use Rattle.trial_script.specs.Draws.{next_draw_state, draw_of, draw_state, drawn_object};

use spb_edge::{Bytes, Memory};
use std::alloc::Global;

/// How many draws make an object.
pub(crate) const DRAWS: usize = 4;

/// A linear congruential generator: each draw moves its state on.
#[derive(Clone, Copy)]
pub(crate) struct Draws {
    pub(crate) state: u64,
}

impl Draws {
    /// A number from 0 to 1000.
    pub(crate) fn draw(&mut self) -> u32
        ensures drawn { result ≡ draw_of self.new.state }
        ensures state { self.new.state ≡ next_draw_state self.old.state }
    {
        self.state = self
            .state
            .wrapping_mul(6364136223846793005)
            .wrapping_add(1442695040888963407);
        ((self.state >> 33) % 1001) as u32
    }

    /// The object that four draws make.
    pub(crate) fn object(&mut self, alloc: Global) -> Result<Bytes, Memory>
        ensures object { IfOk result (λ object. object ≡ drawn_object self.old.state 0) }
        ensures state { OnOk result (self.new.state ≡ draw_state self.old.state 4) }
    {
        let mut object = Bytes::of(alloc, &[])?;
        for _ in 0..DRAWS {
            object.append(&self.draw().to_be_bytes())?;
        }
        Ok(object)
    }

    /// Passes over so many draws.
    pub(crate) fn skip(&mut self, draws: usize)
        ensures { self.new.state ≡ draw_state self.old.state draws }
    {
        for _ in 0..draws {
            self.draw();
        }
    }
}
