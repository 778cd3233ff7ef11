//! Laws of a trial's script and of its totals.
ghost use Rattle.std.specs.Prelude.{◌≡◌, ℕ, ◌<◌, ◌≤◌, ◌^◌, Ok, All};
ghost use Rattle.spb_edge.specs.Lines.{lines_of};
ghost use Rattle.spb_defs.specs.declared.TheConstants.{LINE_LIMIT};
ghost use Rattle.spb_defs.specs.Grammar.{command_of};
ghost use Rattle.spb_defs.specs.CommandText.{IsWellFormed, command_text};
ghost use Rattle.spb_defs.specs.State.{IsState};
ghost use Rattle.trial_script.specs.Script.{trial_space, trial_state, trial_commands, trial_lines, trial_script};
ghost use Rattle.trial_script.specs.Totals.{trial_totals, capped};

use spb_defs::states_are_kept;

/// The commands of a trial are commands on objects of its space, the line of each is read as it, and their lines are those
/// of the script. The call does nothing.
pub fn lines_are_commands()
    ensures proper { (seed count : ℕ) → count < 2 ^ 32 → All (IsWellFormed trial_space) (trial_commands seed count) }
    ensures read { (seed count : ℕ) → count < 2 ^ 32
        → All (λ command. command_of trial_space (command_text trial_space command) ≡ Ok command) (trial_commands seed count) }
    ensures script { (seed count : ℕ) → count < 2 ^ 32 → lines_of LINE_LIMIT (trial_script seed count) ≡ trial_lines seed count }
{}

/// A trial begins at a state as every one is, and no sum over the replies of a trial needs more than 64 bits. The call does
/// nothing.
pub fn totals_fit()
    ensures begins { (seed : ℕ) → IsState (trial_state seed) }
    ensures totals { (seed count : ℕ) → count ≤ 65536 → capped (trial_totals seed count) ≡ trial_totals seed count }
{
    // The law on states, for both clauses.
    states_are_kept();
}
