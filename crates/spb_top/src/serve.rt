//! Replies to lines, one by one, whatever kind of session there is.
ghost use Rattle.std.specs.Prelude.{◌≡◌, ◌∷◌, ◌++◌, ℕ, List, [], false, Some, IsTrue, IfOk, OnOk};
ghost use Rattle.spb_edge.specs.Reader.{unread, rest, taken, has_ended};
ghost use Rattle.spb_edge.specs.Lines.{lines_of};
ghost use Rattle.spb_edge.specs.declared.reader.Line.{Line};
ghost use Rattle.metrics_builtin.specs.Space.{fits};
ghost use Rattle.spb_defs.specs.MetricOf.{IsMetricOf};
ghost use Rattle.spb_defs.specs.State.{State};
ghost use Rattle.spb_defs.specs.Step.{reply, next_state};
ghost use Rattle.cmd_grammar.specs.HoldsObject.{HoldsObject};
ghost use Rattle.spb_defs.specs.ReplyText.{reply_text};
ghost use Rattle.spb_defs.specs.Changes.{last_state};
ghost use Rattle.spb_top.specs.Written.{WritesReplies, LeavesInput};
ghost use Rattle.spb_top.specs.Outside.{NoneFell, traffic_of, reader_traffic};
ghost use Rattle.spb_top.specs.Causes.{HasServingCause, stopped_by};
ghost use Rattle.spb_top.specs.Turns.{states_through, states_after, AnsweredLines, StopsTurn, IsUndamaged, IsUndamagedStop};

use crate::status::Status;
use crate::turns::Turns;
use cmd_grammar::{Reply, write_reply};
use metric_laws::{Counted, Metric};
use metrics_builtin::Space;
use session::Ending;
use spb_defs::LINE_LIMIT;
use spb_edge::{Bytes, EdgeError, Line, LineReader, Sink, Source, put_all};
use std::alloc::Global;

/// Replies to the lines of the input one by one, in a session that has not ended. Each reply is put into the output before
/// more of the input is taken.
pub(crate) fn serve_input<T: Turns, M: Metric, S: Source, K: Sink>(
    alloc: Global,
    session: &mut T,
    space: &Space,
    metric: M,
    input: &mut S,
    output: &mut K,
) -> Status
    requires fits { IsTrue (fits space.now) }
    requires metric { IsMetricOf (M.admitted metric) (M.dist metric) space.now }
    requires space { T.space session.old ≡ space.now }
    requires open { T.ended session.old ≡ false }
    ensures text { (first : State) → T.holds session.old first → (script : List ℕ) → S.left input.old ≡ Some script
        → WritesReplies result first script (S.left input.new) (K.taken output.old) (K.taken output.new) }
    ensures done { (first : State) → T.holds session.old first → (script : List ℕ) → S.left input.old ≡ Some script
        → result ≡ Status.Done → T.holds session.new (last_state first script) }
    ensures any_moment { (first : State) → T.holds session.old first → (script : List ℕ) → S.left input.old ≡ Some script
        → T.leaves session.old session.new (states_through first (lines_of LINE_LIMIT script)) }
    // What was written tells how many lines were answered: a crash after the call leaves the state after them or after
    // one more.
    ensures acknowledged { (first : State) → T.holds session.old first → (script : List ℕ) → S.left input.old ≡ Some script
        → (before written : List ℕ) → K.taken output.old ≡ Some before → K.taken output.new ≡ Some (before ++ written)
        → (many : ℕ) → AnsweredLines first (lines_of LINE_LIMIT script) written many
        → T.left_now session.new (states_after first (lines_of LINE_LIMIT script) many) }
    ensures input { (script : List ℕ) → S.left input.old ≡ Some script → LeavesInput result script (S.left input.new) }
    ensures cause { HasServingCause result (traffic_of S.Source K.Sink input.old input.new output.old output.new (T.faults session.old) (T.faults session.new)) }
    ensures undamaged { (first : State) → T.holds session.old first → IsUndamaged result }
    ensures faults { NoneFell (traffic_of S.Source K.Sink input.old input.new output.old output.new (T.faults session.old) (T.faults session.new)) }
    ensures name { T.name session.new ≡ T.name session.old }
    ensures told { T.knows session.new ≡ T.knows session.old }
{
    let Ok(mut reader) = LineReader::new(alloc, input) else {
        return Status::NoMemory;
    };
    serve_lines(alloc, session, space, metric, &mut reader, output)
}

/// The same for a new reader.
fn serve_lines<T: Turns, M: Metric, S: Source, K: Sink>(
    alloc: Global,
    session: &mut T,
    space: &Space,
    metric: M,
    reader: &mut LineReader<'_, S>,
    output: &mut K,
) -> Status
    requires fits { IsTrue (fits space.now) }
    requires metric { IsMetricOf (M.admitted metric) (M.dist metric) space.now }
    requires space { T.space session.old ≡ space.now }
    requires open { T.ended session.old ≡ false }
    requires nothing_taken { taken reader.old ≡ 0 }
    requires nothing_unread { unread reader.old ≡ [] }
    requires not_ended { has_ended reader.old ≡ false }
    ensures text { (first : State) → T.holds session.old first → (script : List ℕ) → rest reader.old ≡ Some script
        → WritesReplies result first script (S.left reader.new.source.now) (K.taken output.old) (K.taken output.new) }
    ensures done { (first : State) → T.holds session.old first → (script : List ℕ) → rest reader.old ≡ Some script
        → result ≡ Status.Done → T.holds session.new (last_state first script) }
    ensures any_moment { (first : State) → T.holds session.old first → (script : List ℕ) → rest reader.old ≡ Some script
        → T.leaves session.old session.new (states_through first (lines_of LINE_LIMIT script)) }
    // What was written tells how many lines were answered: a crash after the call leaves the state after them or after
    // one more.
    ensures acknowledged { (first : State) → T.holds session.old first → (script : List ℕ) → rest reader.old ≡ Some script
        → (before written : List ℕ) → K.taken output.old ≡ Some before → K.taken output.new ≡ Some (before ++ written)
        → (many : ℕ) → AnsweredLines first (lines_of LINE_LIMIT script) written many
        → T.left_now session.new (states_after first (lines_of LINE_LIMIT script) many) }
    ensures input { (script : List ℕ) → rest reader.old ≡ Some script → LeavesInput result script (S.left reader.new.source.now) }
    ensures cause { HasServingCause result (reader_traffic S.Source K.Sink reader.old reader.new output.old output.new (T.faults session.old) (T.faults session.new)) }
    ensures undamaged { (first : State) → T.holds session.old first → IsUndamaged result }
    ensures faults { NoneFell (reader_traffic S.Source K.Sink reader.old reader.new output.old output.new (T.faults session.old) (T.faults session.new)) }
    ensures name { reader.new.source.ghost_name ≡ reader.old.source.ghost_name }
    ensures session { T.name session.new ≡ T.name session.old }
    ensures told { T.knows session.new ≡ T.knows session.old }
{
    let Ok(mut text) = Bytes::of(alloc, &[]) else {
        return Status::NoMemory;
    };
    loop {
        let line = match reader.take_line(alloc, LINE_LIMIT) {
            Ok(line) => line,
            Err(e) => return stopped_by(e),
        };
        if line.is_end() {
            return Status::Done;
        }
        if let Err(status) = take_turn(alloc, session, space, metric, &line, &mut text) {
            return status;
        }
        let Ok(()) = put_all(output, text.as_slice()) else {
            return Status::WriteFault;
        };
    }
}

/// Clears the text, and writes the reply to the line there; the session is then as after the line.
///
/// # Errors
///
/// The status with which the run ends: want of memory, a fault of the disk, or a damaged page.
fn take_turn<T: Turns, M: Metric>(
    alloc: Global,
    session: &mut T,
    space: &Space,
    metric: M,
    line: &Line,
    text: &mut Bytes,
) -> Result<(), Status>
    requires fits { IsTrue (fits space.now) }
    requires metric { IsMetricOf (M.admitted metric) (M.dist metric) space.now }
    requires space { T.space session.old ≡ space.now }
    requires open { T.ended session.old ≡ false }
    requires line { line.now ≡ Line.End → ⊥ }
    ensures text { (s : State) → T.holds session.old s → OnOk result (text.new ≡ reply_text space.now (reply s line.now)) }
    ensures next { (s : State) → T.holds session.old s → OnOk result (T.holds session.new (next_state s line.now)) }
    ensures any_moment { (s : State) → T.holds session.old s → T.leaves session.old session.new (s ∷ next_state s line.now ∷ []) }
    ensures space { T.space session.new ≡ T.space session.old }
    ensures open { OnOk result (T.ended session.new ≡ false) }
    ensures stops { StopsTurn result (T.faults session.old) (T.faults session.new) }
    ensures undamaged { (s : State) → T.holds session.old s → IsUndamagedStop result }
    ensures name { T.name session.new ≡ T.name session.old }
    ensures told { T.knows session.new ≡ T.knows session.old }
{
    text.clear();
    let reply = reply_or_stop(alloc, session, metric, line)?;
    match write_reply(space, &reply, text) {
        Ok(()) => Ok(()),
        Err(_) => Err(Status::NoMemory),
    }
}

/// The reply to the line, whose queries are measured by a new ruler.
///
/// # Errors
///
/// The status with which the run ends: want of memory, a fault of the disk, or a damaged page.
pub(crate) fn reply_or_stop<T: Turns, M: Metric>(
    alloc: Global,
    session: &mut T,
    metric: M,
    line: &Line,
) -> Result<Reply, Status>
    requires metric { IsMetricOf (M.admitted metric) (M.dist metric) (T.space session.old) }
    requires open { T.ended session.old ≡ false }
    requires line { line.now ≡ Line.End → ⊥ }
    ensures reply { (s : State) → T.holds session.old s → IfOk result (λ said. said ≡ reply s line.now) }
    ensures next { (s : State) → T.holds session.old s → OnOk result (T.holds session.new (next_state s line.now)) }
    ensures any_moment { (s : State) → T.holds session.old s → T.leaves session.old session.new (s ∷ next_state s line.now ∷ []) }
    ensures object { IfOk result (λ said. HoldsObject (T.space session.old) said) }
    ensures space { T.space session.new ≡ T.space session.old }
    ensures open { OnOk result (T.ended session.new ≡ false) }
    ensures stops { StopsTurn result (T.faults session.old) (T.faults session.new) }
    ensures undamaged { (s : State) → T.holds session.old s → IsUndamagedStop result }
    ensures name { T.name session.new ≡ T.name session.old }
    ensures told { T.knows session.new ≡ T.knows session.old }
{
    match session.turn(alloc, &mut Counted::new(metric), line) {
        Ok(reply) => Ok(reply),
        Err(Ending::DiskFault) => Err(Status::DiskFault),
        Err(Ending::Damaged { page, rule }) => Err(Status::Damaged { page, rule }),
        Err(Ending::NoMemory) => Err(Status::NoMemory),
        Err(Ending::Spent { .. }) => unreachable!(),
    }
}

/// How a run ends if no line came.
fn stopped_by(e: EdgeError) -> Status
    ensures { result ≡ stopped_by e }
{
    match e {
        EdgeError::ReadFault => Status::ReadFault,
        EdgeError::InputLimit => Status::InputLimit,
        EdgeError::Memory => Status::NoMemory,
    }
}
