//! A disk: a file of bytes that grows at its end, and that a crash may leave half written.
ghost use Rattle.std.specs.Prelude.{◌≡◌, ℕ, ◌+◌, ◌≤◌, Bool, List, IsTrue, OnOk, length, take, drop};

use thiserror::Error;

/// Why a call of a [`Disk`] didn't succeed.
#[derive(Clone, Copy, Debug, PartialEq, Eq, Drop, Error)]
pub enum DiskError {
    /// The disk failed, and counted it.
    #[error("disk fault")]
    Failed,
    /// There is no memory for the growth.
    #[error("out of memory")]
    Memory,
}

/// A file of bytes that grows at its end, and that a crash may leave half written.
///
/// Contracts know the length of every disk, of some also the image, and of some of these the crash states. Between two
/// syncs a crash may leave any bytes in the ranges that were written, and any part of the growth; what a sync that
/// succeeded kept stays.
pub trait Disk {
    ghost use Rattle.std.specs.Prelude.{◌≡◌, ℕ, ◌+◌, ◌≤◌, Bool, List, IsTrue, OnOk, length, take, drop};
    ghost use Rattle.spb_edge.specs.Disk.{IsSize, Overwrites, Extends, CountsFault, CountsWriteFault};
    ghost use Rattle.spb_edge.specs.Fault.{next_count};
    ghost use Rattle.spb_edge.specs.Crash.{IsTornWrite, FollowsBy, Includes, IsDurable, Elapses};
    ghost use Rattle.spb_edge.specs.Quiet.{IsQuiet};

    // whether the image is known
    ghost is_known: { Self → Bool };

    // whether the crash states are known
    ghost knows_crashes: { Self → Bool };

    // the image as it reads, if it is known
    ghost image: { Self → List ℕ };

    // how long the image is
    ghost size_of: { Self → ℕ };

    // the crash states now; all images if they aren't known
    ghost crash_states: { Self → List ℕ → Type 0 };

    // a number that doesn't fall
    ghost moment: { Self → ℕ };

    // the images that a crash may have left at some moment from the given one on
    ghost crash_states_since: { Self → ℕ → List ℕ → Type 0 };

    // how many calls of `read` were made, if the image is known
    ghost reads: { Self → ℕ };

    // how many calls failed so far
    ghost faults: { Self → ℕ };

    // nothing happened between the two states that a crash could show
    ghost quiet: { Self → Self → Type 0 };

    /// The length in bytes.
    fn size(&mut self) -> Result<u64, DiskError>
        ensures size { IsSize result (size_of self.old) }
        ensures told { (is_known self.new ≡ is_known self.old) × (knows_crashes self.new ≡ knows_crashes self.old) }
        ensures length { size_of self.new ≡ size_of self.old }
        ensures image { IsTrue (is_known self.old) → image self.new ≡ image self.old }
        ensures quiet { quiet self.old self.new }
        ensures reads { IsTrue (is_known self.old) → reads self.new ≡ reads self.old }
        ensures fault { CountsFault result (faults self.old) (faults self.new) };

    /// Fills `into` with the bytes from `at` on. If the image is known, they are within it.
    fn read(&mut self, at: u64, into: &mut [u8]) -> Result<(), DiskError>
        requires { IsTrue (is_known self.old) → at + length into.old ≤ size_of self.old }
        ensures data { IsTrue (is_known self.old) → OnOk result (into.new ≡ take (length into.old) (drop at (image self.old))) }
        ensures told { (is_known self.new ≡ is_known self.old) × (knows_crashes self.new ≡ knows_crashes self.old) }
        ensures length { size_of self.new ≡ size_of self.old }
        ensures image { IsTrue (is_known self.old) → image self.new ≡ image self.old }
        ensures quiet { quiet self.old self.new }
        ensures reads { IsTrue (is_known self.old) → reads self.new ≡ next_count (reads self.old) }
        ensures fault { CountsFault result (faults self.old) (faults self.new) };

    /// Overwrites the image with `bytes` from `at` on. If the image is known, that is at most its end. Until a sync
    /// succeeds, a crash may leave any bytes in this range, and any part of the growth, whatever the call answers. A
    /// refused write may have left any bytes there.
    fn write_at(&mut self, at: u64, bytes: &[u8]) -> Result<(), DiskError>
        requires { IsTrue (is_known self.old) → at ≤ size_of self.old }
        ensures image { IsTrue (is_known self.old) → Overwrites result at bytes.now (image self.old) (image self.new) }
        ensures told { (is_known self.new ≡ is_known self.old) × (knows_crashes self.new ≡ knows_crashes self.old) }
        ensures length { Extends result (size_of self.old) (at + length bytes.now) (size_of self.new) }
        ensures crash { FollowsBy (IsTornWrite at (length bytes.now)) (crash_states self.old) (crash_states self.new) }
        ensures time { Elapses (moment self.old) (moment self.new) (crash_states_since self.old) (crash_states_since self.new) (crash_states self.new) }
        ensures reads { IsTrue (is_known self.old) → reads self.new ≡ reads self.old }
        ensures fault { CountsWriteFault result (size_of self.old) (at + length bytes.now) (faults self.old) (faults self.new) };

    /// Syncs what was written. The image stays as it reads. If the call succeeds, it is the only
    /// crash state; until then, a crash may leave what it could leave before.
    fn sync(&mut self) -> Result<(), DiskError>
        ensures kept { IsTrue (is_known self.old) → IsTrue (knows_crashes self.old) → OnOk result (IsDurable (image self.old) (crash_states self.new)) }
        ensures told { (is_known self.new ≡ is_known self.old) × (knows_crashes self.new ≡ knows_crashes self.old) }
        ensures length { size_of self.new ≡ size_of self.old }
        ensures image { IsTrue (is_known self.old) → image self.new ≡ image self.old }
        ensures crash { Includes (crash_states self.old) (crash_states self.new) }
        ensures time { Elapses (moment self.old) (moment self.new) (crash_states_since self.old) (crash_states_since self.new) (crash_states self.new) }
        ensures reads { IsTrue (is_known self.old) → reads self.new ≡ reads self.old }
        ensures fault { CountsFault result (faults self.old) (faults self.new) };

    // a known image has the known length
    ghost length_is: { (d : Self) → IsTrue (is_known d) → size_of d ≡ length (image d) };

    // a known image as it reads is a crash state
    ghost leaves_image: { (d : Self) → IsTrue (is_known d) → crash_states d (image d) };

    // what a crash may leave now is what it may have left since any moment so far
    ghost counts_now: { (d : Self) (t : ℕ) (c : List ℕ) → t ≤ moment d → crash_states d c → crash_states_since d t c };

    // since now, there is only what a crash may leave now
    ghost only_now: { (d : Self) → Includes (crash_states d) (crash_states_since d (moment d)) };

    // what holds over a quiet stretch
    ghost quiet_is: { (old new : Self) → quiet old new → IsQuiet is_known knows_crashes size_of image crash_states moment crash_states_since old new };

    // a state is quiet with itself
    ghost quiet_same: { (d : Self) → quiet d d };

    // quiet stretches join
    ghost quiet_chains: { (old mid new : Self) → quiet old mid → quiet mid new → quiet old new };
}
