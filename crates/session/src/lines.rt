//! Lines as commands.
ghost use Rattle.std.specs.Prelude.{◌≡◌, IsTrue};
ghost use Rattle.metrics_builtin.specs.Space.{fits};
ghost use Rattle.spb_defs.specs.State.{State};
ghost use Rattle.session.specs.Queries.{ReadsLine};

use cmd_grammar::{Command, LineError, Reply, read_command};
use metrics_builtin::Space;
use spb_edge::{Line, Memory};
use std::alloc::Global;

/// The command that the line is, or the reply to a line that is none.
///
/// # Errors
///
/// [`Memory`] if it runs out.
#[tactic(auto, unfolding(spb_defs::specs::Step::reply, spb_defs::specs::Step::next_state))]
pub(crate) fn read_line(
    alloc: Global,
    space: &Space,
    line: &Line,
) -> Result<Result<Command, Reply>, Memory>
    requires { IsTrue (fits space.now) }
    ensures { (s : State) → s.space ≡ space.now → ReadsLine result s line.now }
{
    let Line::Text(text) = line else {
        return Ok(Err(Reply::Long));
    };
    match read_command(alloc, space, text.as_slice()) {
        Ok(command) => Ok(Ok(command)),
        Err(LineError::Bad(failed)) => Ok(Err(Reply::Bad(failed))),
        Err(LineError::Memory) => Err(Memory),
    }
}
