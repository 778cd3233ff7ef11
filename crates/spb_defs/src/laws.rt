ghost use Rattle.std.specs.Prelude.{◌≡◌, ◌≤◌, ◌↔◌, ℕ, List, length, Some, None, All, IsTrue};
ghost use Rattle.std.specs.List.{Contains};
ghost use Rattle.spb_edge.specs.declared.reader.Line.{Line};
ghost use Rattle.spb_edge.specs.Lines.{lines_of};
ghost use Rattle.metrics_builtin.specs.declared.Space.{Space};
ghost use Rattle.metrics_builtin.specs.Space.{fits, IsValid};
ghost use Rattle.spb_defs.specs.declared.TheConstants.{LINE_LIMIT, PIVOT_LIMIT};
ghost use Rattle.spb_defs.specs.declared.Asked.{Asked};
ghost use Rattle.spb_defs.specs.declared.CurveKind.{CurveKind};
ghost use Rattle.spb_defs.specs.Words.{asked_of, AreWordsFor};
ghost use Rattle.spb_defs.specs.State.{State, IsState, with_samples_closed, empty_in_memory, empty_in_file};
ghost use Rattle.spb_defs.specs.Choice.{chosen_places};
ghost use Rattle.spb_defs.specs.Farthest.{IsChoice};
ghost use Rattle.spb_defs.specs.Step.{reply, next_state, IsRefusal, ClosesSamples};
ghost use Rattle.spb_defs.specs.Changes.{IsReached, changes};

use crate::{LINE_LIMIT, MEMORY_CAP, NEAR_LIMIT, PIVOT_LIMIT, SAMPLE_LIMIT};

/// The limits that the definitions speak of: bytes of a line, objects of a store in memory, samples,
/// ranks that are asked for at once, and pivots. The call does nothing.
pub fn limits()
    ensures line { LINE_LIMIT ≡ 16384 }
    ensures objects { MEMORY_CAP ≡ 65536 }
    ensures samples { SAMPLE_LIMIT ≡ 4096 }
    ensures ranks { NEAR_LIMIT ≡ 65536 }
    ensures pivots { PIVOT_LIMIT ≡ 8 }
{}

/// A line that is refused changes no member. If it is a command other than a sample, it leaves the state
/// with its samples closed, and any other leaves the state as it was: a line that is too long or no command,
/// and a sample. The call does nothing.
pub fn refusals_change_nothing()
    ensures command { (s : State) (line : Line) → IsRefusal (reply s line) → ClosesSamples s.space line → next_state s line ≡ with_samples_closed s }
    ensures other { (s : State) (line : Line) → IsRefusal (reply s line) → (ClosesSamples s.space line → ⊥) → next_state s line ≡ s }
{}

/// What holds of every state: it holds of an empty store in memory and of one in a file, each line keeps it,
/// and so it holds of every state that a script leads to. The call does nothing.
pub fn states_are_kept()
    ensures in_memory { (space : Space) (wanted : ℕ) → IsTrue (fits space) → wanted ≤ PIVOT_LIMIT → IsState (empty_in_memory space wanted) }
    ensures in_file { (space : Space) (curve : CurveKind) (pivots : List (List ℕ)) (cap : ℕ) → IsTrue (fits space) → All (IsValid space) pivots
        → length pivots ≤ PIVOT_LIMIT → IsState (empty_in_file space curve pivots cap) }
    ensures next { (s : State) (line : Line) → IsState s → IsState (next_state s line) }
    ensures reached { (s : State) (script : List ℕ) (t : State) → IsState s → IsReached s (lines_of LINE_LIMIT script) t → IsState t }
{}

/// The choice of n pivots from at least as many samples, for any distance, in its own words: some places are
/// chosen exactly if they are n places of samples, no two equal, and each is the first of those whose
/// distances to the ones before it have the greatest sum. The call does nothing.
pub fn pivots_are_farthest_first()
    ensures { (dist : List ℕ → List ℕ → ℕ) (samples : List (List ℕ)) (n : ℕ) (places : List ℕ) → n ≤ length samples
        → ((places ≡ chosen_places dist samples n) ↔ IsChoice dist samples n places) }
{}

/// The states that the first lines of a script lead to are the first state and the states after its changes:
/// each of these is reached from any state, and with the samples closed no other is. The call does nothing.
pub fn reached_states()
    ensures changes { (s : State) (script : List ℕ) (t : State) → Contains (changes s script) t → IsReached s (lines_of LINE_LIMIT script) t }
    ensures all { (s : State) (script : List ℕ) (t : State) → s.samples ≡ None → IsReached s (lines_of LINE_LIMIT script) t → Contains (changes s script) t }
{}

/// The words of the program ask for what they spell, and for nothing else. The call does nothing.
pub fn words_are_spelled()
    ensures { (words : List (List ℕ)) (asked : Asked) → (asked_of words ≡ Some asked) ↔ AreWordsFor words asked }
{}
