//! What the replies of a trial come to.
ghost use Rattle.std.specs.Prelude.{◌≡◌, [], ◌∷◌, ◌++◌, List, OnOk};
ghost use Rattle.spb_defs.specs.declared.Reply.{Reply};
ghost use Rattle.trial_script.specs.Totals.{totals_of, capped, summary_text};

use crate::writing::write_number;
use spb_defs::Reply;
use spb_edge::{Bytes, Memory};

/// The sums of the numbers in the replies to one kind of query.
#[derive(Clone, Copy, Debug, PartialEq, Eq)]
pub struct Tally {
    /// How many ids, ranks or pairs were found.
    pub found: u64,
    /// How many distances were computed.
    pub evals: u64,
    /// How many were found by the pivots alone.
    pub sure: u64,
}

/// What the replies of a trial come to. A sum stands still at the greatest number of 64 bits, which no trial reaches.
#[derive(Clone, Copy, Debug, PartialEq, Eq)]
pub struct Totals {
    /// How many changes were made.
    pub changes: u64,
    /// The sums over the ranges.
    pub range: Tally,
    /// The sums over the questions for the nearest, none of whose answers is sure.
    pub near: Tally,
    /// The sums over the joins.
    pub join: Tally,
}

impl Tally {
    ghost use Rattle.trial_script.specs.Totals.{no_tally, capped_tally, tally_and, found_text, sure_text};

    /// Nothing yet.
    const fn none() -> Tally
        ensures { result ≡ no_tally }
    {
        Tally {
            found: 0,
            evals: 0,
            sure: 0,
        }
    }

    /// The sums with these numbers.
    fn and(self, found: u64, evals: u64, sure: u64) -> Tally
        ensures { result ≡ capped_tally (tally_and self found evals sure) }
    {
        Tally {
            found: self.found.saturating_add(found),
            evals: self.evals.saturating_add(evals),
            sure: self.sure.saturating_add(sure),
        }
    }

    /// Appends the name, how many were found and how many distances were computed to `text`.
    fn write_found(&self, name: &[u8], text: &mut Bytes) -> Result<(), Memory>
        ensures { OnOk result (text.new ≡ text.old ++ found_text name.now self.now) }
    {
        write_number(name, self.found, text)?;
        write_number(b" evals ", self.evals, text)
    }

    /// Appends the name and all three numbers to `text`.
    fn write_sure(&self, name: &[u8], text: &mut Bytes) -> Result<(), Memory>
        ensures { OnOk result (text.new ≡ text.old ++ sure_text name.now self.now) }
    {
        self.write_found(name, text)?;
        write_number(b" sure ", self.sure, text)
    }
}

impl Totals {
    /// What no reply comes to.
    pub fn none() -> Totals
        ensures { result ≡ totals_of [] }
    {
        Totals {
            changes: 0,
            range: Tally::none(),
            near: Tally::none(),
            join: Tally::none(),
        }
    }

    /// Adds the numbers of one more reply.
    pub fn add(&mut self, reply: &Reply)
        ensures { (replies : List Reply) → self.old ≡ capped (totals_of replies) → self.new ≡ capped (totals_of (replies ++ reply.now ∷ [])) }
    {
        match reply {
            Reply::Done => self.changes = self.changes.saturating_add(1),
            Reply::Range { ids, evals, sure } => {
                self.range = self.range.and(ids.as_slice().len() as u64, *evals, *sure);
            }
            Reply::Near { rows, evals } => {
                self.near = self.near.and(rows.as_slice().len() as u64, *evals, 0);
            }
            Reply::Join { pairs, evals, sure } => {
                self.join = self.join.and(pairs.as_slice().len() as u64, *evals, *sure);
            }
            Reply::Exists
            | Reply::Absent
            | Reply::Full
            | Reply::Curve
            | Reply::Late
            | Reply::Object(_)
            | Reply::Count(_)
            | Reply::Bad(_)
            | Reply::Long => {}
        }
    }

    /// Appends the line of a trial whose replies come to this, with its LF, to `text`.
    ///
    /// # Errors
    ///
    /// `Memory` if memory runs out. Then the text may end in the middle of the line.
    pub fn write_summary(&self, text: &mut Bytes) -> Result<(), Memory>
        ensures { OnOk result (text.new ≡ text.old ++ summary_text self.now) }
    {
        write_number(b"trial changes ", self.changes, text)?;
        self.range.write_sure(b" range ", text)?;
        self.near.write_found(b" near ", text)?;
        self.join.write_sure(b" join ", text)?;
        text.append(b"\n")
    }
}
