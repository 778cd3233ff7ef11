//! The lines of a trial, one by one.
ghost use Rattle.std.specs.Prelude.{◌≡◌, ◌^◌, ◌<◌, IfOk, OnErr};
ghost use Rattle.trial_script.specs.Script.{trial_lines};
ghost use Rattle.trial_script.specs.Lines.{GivesNext};

use crate::TRIAL_SAMPLES;
use crate::draws::{DRAWS, Draws};
use crate::writing::write_command;
use spb_edge::{Bytes, Line, Memory};
use std::alloc::Global;
use std::marker::Model;

/// How many ranges are asked for, and how often the nearest.
pub(crate) const QUERIES: u64 = 16;

/// The lines of a trial that are left, made one by one. It keeps none of them.
#[derive(Drop)]
pub struct TrialLines {
    draws: Draws,
    place: u64,
    count: u64,
}

impl Model for TrialLines {
    ghost use Rattle.std.specs.Prelude.{List, ◌^◌, ◌<◌};
    ghost use Rattle.spb_edge.specs.declared.reader.Line.{Line};
    ghost use Rattle.trial_script.specs.Lines.{lines_from};

    ghost Value = { List Line };

    ghost view = { λ s. lines_from s.draws.state s.place s.count };

    ghost invariant = { λ s. s.count < 2 ^ 32 };
}

impl TrialLines {
    /// The lines of the trial with this seed that adds `count` objects: so many additions, 16 ranges, 16 questions for
    /// the nearest, and a join. It takes no memory.
    pub fn new(seed: u64, count: u32) -> TrialLines
        ensures { result ≡ trial_lines seed count }
    {
        let mut draws = Draws { state: seed };
        draws.skip(DRAWS * TRIAL_SAMPLES);
        TrialLines {
            draws,
            place: 0,
            count: u64::from(count),
        }
    }

    /// The next line, or none if none is left.
    ///
    /// It takes memory for the line and for its object.
    ///
    /// # Errors
    ///
    /// `Memory` if memory runs out. Then the line is still left.
    pub fn next_line(&mut self, alloc: Global) -> Result<Option<Line>, Memory>
        ensures ok { IfOk result (λ line. GivesNext line self.old self.new) }
        ensures err { OnErr result (self.new ≡ self.old) }
    {
        if self.place > self.count + 2 * QUERIES {
            return Ok(None);
        }
        let mut draws = self.draws;
        let object = draws.object(alloc)?;
        let mut text = Bytes::of(alloc, &[])?;
        write_command(self.count, self.place, object.as_slice(), &mut text)?;
        self.draws = draws;
        self.place += 1;
        Ok(Some(Line::Text(text)))
    }
}
