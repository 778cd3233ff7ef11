//! The top call.
ghost use Rattle.std.specs.Prelude.{◌≡◌, ◌<◌, ◌++◌, ℕ, List, Some, None, map, false, IsTrue};
ghost use Rattle.std.specs.String.{string_bytes};
ghost use Rattle.spb_edge.specs.Calls.{StaysKnown};
ghost use Rattle.spb_edge.specs.Crash.{IsDurable, CrashesLeaveOnly};
ghost use Rattle.spb_edge.specs.Lines.{lines_of};
ghost use Rattle.metrics_builtin.specs.declared.Space.{Space};
ghost use Rattle.spb_defs.specs.declared.Asked.{Asked};
ghost use Rattle.spb_defs.specs.declared.CurveKind.{CurveKind};
ghost use Rattle.spb_defs.specs.State.{State};
ghost use Rattle.spb_defs.specs.Words.{asked_of};
ghost use Rattle.store_check.specs.Stands.{Stands};
ghost use Rattle.spb_top.specs.Written.{WritesReplies, WritesLine, LeavesInput};
ghost use Rattle.spb_top.specs.Outside.{NoneFell, known_image, outside_of};
ghost use Rattle.spb_top.specs.Causes.{Asks, HasCause, Completes, IsKnown, StopsSampling, answers_lines, reads_input, uses_disk, makes_store};
ghost use Rattle.spb_top.specs.Files.{AnswersFrom, IsLineOf, EndsAs, IsKnownBefore, MayLeave};
ghost use Rattle.spb_top.specs.Turns.{AnsweredLines, states_after, StandsForOne};

use crate::checking::check_file;
use crate::laws::causes_complete;
use crate::making::{Plan, make_file};
use crate::memory::serve_memory;
use crate::serving_file::serve_file;
use crate::status::Status;
use crate::trial::try_file;
use program_words::read_words;
use spb_defs::{Asked, LINE_LIMIT};
use spb_edge::{Disk, Sink, Source};
use std::alloc::Global;

/// Does what the words ask for, and says how it ended.
///
/// The words are those after the program's name. `mem KIND PARAM..` answers a script in memory: the lines of `input` are
/// read to its end, from an empty store of that space, and the reply to each is put into `output` before more is taken;
/// one more word says how many pivots are chosen from the samples, 0 to 8, and without it there are none. `make` makes the
/// file of an empty store on an empty disk, with pivots from the samples in the input, and prints a line. `run` answers a
/// script on the store in the file, each change of which is whole or not at all whenever the run is stopped. `check` opens
/// the store and prints how many objects it has. `trial` makes a store on an empty disk, answers a generated script on it and
/// prints the sums over the replies. All other words are [`Status::Usage`].
///
/// Each line is passed over a few times, and answered at the cost that [`MemSession::turn`](session::MemSession::turn) or
/// [`FileSession::turn`](session::FileSession::turn) gives; a file is opened at the cost of
/// [`Opening::finish`](store_core::Opening::finish).
pub fn run<S: Source, K: Sink, D: Disk>(
    alloc: Global,
    words: &[String],
    input: &mut S,
    output: &mut K,
    disk: &mut D,
) -> Status
    // It ends as Usage exactly if the words aren't in the grammar; memory may run out before that is known.
    ensures words { Asks (asked_of (map string_bytes words.now)) result }

    // What is written is what scanning all objects gives, from the empty store in memory or from the state that the file
    // stands for, however the input is cut into pieces: all of it on Done, the replies to the lines that an LF ended on
    // ReadFault and InputLimit, and a prefix of it on the other statuses.
    ensures text { (first : State) → AnswersFrom (asked_of (map string_bytes words.now)) (known_image D.is_known D.image disk.old) first
        → (script : List ℕ) → S.left input.old ≡ Some script
        → WritesReplies result first script (S.left input.new) (K.taken output.old) (K.taken output.new) }
    // Where no lines are answered, what is written is the one line at the end of the work.
    ensures line { (asked : Asked) → asked_of (map string_bytes words.now) ≡ Some asked → answers_lines asked ≡ false
        → WritesLine (IsLineOf asked (outside_of S.Source K.Sink D.Disk input.old input.new output.old output.new disk.old disk.new)) result (K.taken output.old) (K.taken output.new) }
    ensures input { (script : List ℕ) → S.left input.old ≡ Some script → (asked : Asked) → asked_of (map string_bytes words.now) ≡ Some asked
        → IsTrue (reads_input asked) → LeavesInput result script (S.left input.new) }
    ensures unread { (asked : Asked) → asked_of (map string_bytes words.now) ≡ Some asked → reads_input asked ≡ false → input.new ≡ input.old }
    ensures samples { (curve : CurveKind) (pivots cap : ℕ) (space : Space) → asked_of (map string_bytes words.now) ≡ Some (Asked.Make curve pivots cap space)
        → (script : List ℕ) → S.left input.old ≡ Some script → StopsSampling result space script (S.left input.new) }
    ensures usage { asked_of (map string_bytes words.now) ≡ None → (input.new ≡ input.old) × (output.new ≡ output.old) × (disk.new ≡ disk.old) }

    // Stopped at any moment, the file is what the words allow: for `run` it stands for a state of the changes.
    ensures any_moment { IsTrue (D.is_known disk.old) → IsTrue (D.knows_crashes disk.old) → IsDurable (D.image disk.old) (D.crash_states disk.old)
        → (asked : Asked) → asked_of (map string_bytes words.now) ≡ Some asked
        → IsKnownBefore asked (outside_of S.Source K.Sink D.Disk input.old input.new output.old output.new disk.old disk.new)
        → CrashesLeaveOnly D.moment D.crash_states_since disk.old disk.new
        (MayLeave asked (outside_of S.Source K.Sink D.Disk input.old input.new output.old output.new disk.old disk.new)) }
    // What was written tells which changes were acknowledged: a crash after the call leaves the state after the lines that
    // were answered, or after one more.
    ensures acknowledged { IsTrue (D.is_known disk.old) → IsTrue (D.knows_crashes disk.old) → IsDurable (D.image disk.old) (D.crash_states disk.old)
        → asked_of (map string_bytes words.now) ≡ Some Asked.Run
        → (first : State) → Stands (D.image disk.old) first → (script : List ℕ) → S.left input.old ≡ Some script
        → (before written : List ℕ) → K.taken output.old ≡ Some before → K.taken output.new ≡ Some (before ++ written)
        → (many : ℕ) → AnsweredLines first (lines_of LINE_LIMIT script) written many
        → (c : List ℕ) → D.crash_states disk.new c → StandsForOne (states_after first (lines_of LINE_LIMIT script) many) c }
    // When the work is done, the file stands for the state that the words lead to, and nothing is pending.
    ensures stored { IsTrue (D.is_known disk.old) → (asked : Asked) → asked_of (map string_bytes words.now) ≡ Some asked → result ≡ Status.Done
        → EndsAs asked (outside_of S.Source K.Sink D.Disk input.old input.new output.old output.new disk.old disk.new) (D.image disk.new) }
    ensures durable { IsTrue (D.is_known disk.old) → IsTrue (D.knows_crashes disk.old) → IsDurable (D.image disk.old) (D.crash_states disk.old)
        → (asked_of (map string_bytes words.now) ≡ Some Asked.Run → IsKnown (S.left input.old))
        → result ≡ Status.Done → IsDurable (D.image disk.new) (D.crash_states disk.new) }
    // A disk that isn't empty isn't written for a new store, and one is never touched for a store in memory.
    ensures untouched { (asked : Asked) → asked_of (map string_bytes words.now) ≡ Some asked → IsTrue (makes_store asked) → 0 < D.size_of disk.old
        → D.quiet disk.old disk.new }
    ensures in_memory { (asked : Asked) → asked_of (map string_bytes words.now) ≡ Some asked → uses_disk asked ≡ false → disk.new ≡ disk.old }

    // Each status has its cause, and if there is none of the causes the work is done.
    ensures cause { HasCause (asked_of (map string_bytes words.now)) result (outside_of S.Source K.Sink D.Disk input.old input.new output.old output.new disk.old disk.new) }
    ensures complete { Completes (asked_of (map string_bytes words.now)) result (outside_of S.Source K.Sink D.Disk input.old input.new output.old output.new disk.old disk.new) }
    ensures faults { NoneFell (outside_of S.Source K.Sink D.Disk input.old input.new output.old output.new disk.old disk.new).traffic }
    ensures told { StaysKnown D.is_known D.knows_crashes disk.old disk.new }
{
    // The law on causes, for `complete`.
    causes_complete();
    let Ok(asked) = read_words(alloc, words) else {
        return Status::NoMemory;
    };
    match asked {
        Some(Asked::Mem(setup)) => serve_memory(alloc, setup, input, output),
        Some(
            Asked::Make {
                curve,
                pivots,
                cap,
                space,
            },
        ) => {
            let plan = Plan {
                curve,
                pivots,
                cap,
                space,
            };
            make_file(alloc, plan, input, output, disk)
        }
        Some(Asked::Run) => serve_file(alloc, input, output, disk),
        Some(Asked::Check) => check_file(alloc, output, disk),
        Some(Asked::Trial { seed, count }) => try_file(alloc, seed, count, output, disk),
        None => Status::Usage,
    }
}
