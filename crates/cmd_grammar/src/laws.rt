ghost use Rattle.std.specs.Prelude.{◌≡◌, ℕ, ◌↔◌, List, Ok, IsTrue};
ghost use Rattle.metrics_builtin.specs.declared.Space.{Space};
ghost use Rattle.metrics_builtin.specs.Space.{fits};
ghost use Rattle.spb_defs.specs.declared.Command.{Command};
ghost use Rattle.spb_defs.specs.Grammar.{command_of};
ghost use Rattle.spb_defs.specs.CommandText.{IsWellFormed, command_text};

/// Each command on objects of a space that fits has one line, which is read as that command, and no
/// other line is read.
pub fn one_line()
    ensures { (space : Space) (line : List ℕ) (command : Command) → IsTrue (fits space)
        → ((command_of space line ≡ Ok command) ↔ (IsWellFormed space command × (line ≡ command_text space command))) }
{}
