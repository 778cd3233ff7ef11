//! The command line as `clap` reads it: one level of subcommands, each with words in their places.
ghost use Rattle.std.specs.Prelude.{◌≡◌, IfOk, false, map};
ghost use Rattle.clap.specs.Words.{app_of, rule_of};
ghost use Rattle.clap.specs.declared.builder.Command.TheViews.{out-Command as fields_of};
ghost use Rattle.program_words.specs.CommandLine.{one_word, more_words, with_words, with_subcommands, subcommand_in, command_alone, command_spb};

use clap::{Arg, Command};
use std::alloc::{AllocError, Global};

/// A subcommand: its name, the words that have to be there, each by the id under which it is found, and whether one
/// word or more stand behind them.
struct Form {
    name: &'static str,
    words: &'static [&'static str],
    goes_on: bool,
}

/// `mem KIND PARAM..`, `make FILE CURVE PIVOTS CAP KIND PARAM..`, `run FILE`, `check FILE`, `trial FILE SEED COUNT`
const FORMS: [Form; 5] = [
    Form {
        name: "mem",
        words: &["kind"],
        goes_on: true,
    },
    Form {
        name: "make",
        words: &["file", "curve", "pivots", "cap", "kind"],
        goes_on: true,
    },
    Form {
        name: "run",
        words: &["file"],
        goes_on: false,
    },
    Form {
        name: "check",
        words: &["file"],
        goes_on: false,
    },
    Form {
        name: "trial",
        words: &["file", "seed", "count"],
        goes_on: false,
    },
];

/// The program with all its subcommands.
pub(crate) fn command_line<'a>(alloc: Global) -> Result<Command<'a>, AllocError>
    ensures { IfOk result (λ command. app_of command ≡ command_spb) }
{
    with_subcommands(alloc, alone(alloc), &FORMS)
}

/// The command with a subcommand of each form.
fn with_subcommands<'a>(
    alloc: Global,
    mut command: Command<'a>,
    forms: &[Form],
) -> Result<Command<'a>, AllocError>
    requires local { (fields_of command).has_globals ≡ false }
    ensures { IfOk result (λ new. app_of new ≡ with_subcommands (app_of command.entry) (map subcommand_in forms.now)) }
{
    for form in forms {
        command = command.subcommand(subcommand(alloc, form)?)?;
    }
    Ok(command)
}

/// The subcommand of a form.
fn subcommand<'a>(alloc: Global, form: &Form) -> Result<Command<'a>, AllocError>
    ensures app { IfOk result (λ command. app_of command ≡ subcommand_in form.now) }
    ensures local { IfOk result (λ command. (fields_of command).has_globals ≡ false) }
{
    let command = with_words(alloc, Command::new(alloc, form.name), form.words)?;
    if form.goes_on {
        return command.arg(more_words(alloc, "parameters"));
    }
    Ok(command)
}

/// The command with the words that have to be there.
fn with_words<'a>(
    alloc: Global,
    mut command: Command<'a>,
    ids: &[&'a str],
) -> Result<Command<'a>, AllocError>
    requires local { (fields_of command).has_globals ≡ false }
    ensures app { IfOk result (λ new. app_of new ≡ with_words (app_of command.entry) (map (λ id. id.now) ids.now)) }
    ensures local { IfOk result (λ new. (fields_of new).has_globals ≡ false) }
{
    for id in ids {
        command = command.arg(one_word(alloc, id))?;
    }
    Ok(command)
}

/// The program, before its subcommands.
fn alone<'a>(alloc: Global) -> Command<'a>
    ensures app { app_of result ≡ command_alone }
    ensures local { (fields_of result).has_globals ≡ false }
{
    Command::new(alloc, "spb")
        .no_binary_name(true)
        .disable_help_flag(true)
        .disable_help_subcommand(true)
        .subcommand_required(true)
}

/// A word that has to be there, by the id under which it is found.
fn one_word<'a>(alloc: Global, id: &'a str) -> Arg<'a>
    ensures rule { rule_of result ≡ one_word id.entry.now }
    ensures local { result.global ≡ false }
{
    Arg::new(alloc, id).required(true)
}

/// All words that are left, one at least.
fn more_words<'a>(alloc: Global, id: &'a str) -> Arg<'a>
    ensures rule { rule_of result ≡ more_words id.entry.now }
    ensures local { result.global ≡ false }
{
    one_word(alloc, id).num_args(1..)
}
