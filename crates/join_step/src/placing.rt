//! The sides of a pair.
ghost use Rattle.std.specs.Prelude.{◌≡◌};
ghost use Rattle.join_step.specs.Meetings as words;
ghost use Rattle.join_step.specs.declared.placing.Placing.TheVariants as placing;

use join_window::Reaching;

/// Which of an earlier and a later entry stands on the left of their pair.
#[derive(Clone, Copy, Debug, PartialEq, Eq)]
pub enum Placing {
    /// The one with the lesser id, and the earlier one of two with the same.
    ByIds,
    /// The earlier one.
    LaterRight,
    /// The later one.
    LaterLeft,
}

impl Placing {
    ghost use Rattle.join_step.specs.Meetings.{placed};

    /// The two entries, the one on the left first.
    pub fn pair<'a>(
        self,
        earlier: &'a Reaching,
        later: &'a Reaching,
    ) -> (&'a Reaching, &'a Reaching)
        ensures { (result.0.now, result.1.now) ≡ placed self earlier.now later.now }
    {
        match self {
            Placing::ByIds => by_ids(earlier, later),
            Placing::LaterRight => (earlier, later),
            Placing::LaterLeft => (later, earlier),
        }
    }
}

/// The two entries, the one with the lesser id first.
fn by_ids<'a>(earlier: &'a Reaching, later: &'a Reaching) -> (&'a Reaching, &'a Reaching)
    ensures { (result.0.now, result.1.now) ≡ words.placed placing.ByIds earlier.now later.now }
{
    if later.entry.id < earlier.entry.id {
        return (later, earlier);
    }
    (earlier, later)
}
