//! The subcommands and their arguments, as `clap` expects them.
ghost use Rattle.std.specs.Prelude.{◌≡◌, IfOk};
ghost use Rattle.clap.specs.Simple.{new_shape};
ghost use Rattle.clap.specs.Words.{Rule, Shape};
ghost use Rattle.oc_words.specs.Command.{IsArgument, IsSubcommand, check_shape, gen_shape, get_shape, merge_shape, node_shape, put_shape, replay_shape, rules_shape, with_argument};

use crate::arguments::{flag, option, optional, required};
use clap::{Arg, Command};
use std::alloc::{AllocError, Global};

/// `replay` and `replay FILE`, with the flags `--summary` and `--large`.
pub(crate) fn replay_command<'a>(alloc: Global) -> Result<Command<'a>, AllocError>
    ensures { IfOk result (IsSubcommand replay_shape) }
{
    let one = with(named(alloc, "replay"), flag(alloc, "summary"));
    let two = with(one, flag(alloc, "large"));
    with(two, optional(alloc, "FILE"))
}

/// `merge`.
pub(crate) fn merge_command<'a>(alloc: Global) -> Result<Command<'a>, AllocError>
    ensures { IfOk result (IsSubcommand merge_shape) }
{
    named(alloc, "merge")
}

/// `gen SEED NODES EVENTS`.
pub(crate) fn gen_command<'a>(alloc: Global) -> Result<Command<'a>, AllocError>
    ensures { IfOk result (IsSubcommand gen_shape) }
{
    let seeded = with(named(alloc, "gen"), required(alloc, "SEED"));
    with(
        with(seeded, required(alloc, "NODES")),
        required(alloc, "EVENTS"),
    )
}

/// `node ID`, with the options `--turns N`, `--config FILE`, `--dir FOLDER` and `--log WORD` and the flag `--probe`.
pub(crate) fn node_command<'a>(alloc: Global) -> Result<Command<'a>, AllocError>
    ensures { IfOk result (IsSubcommand node_shape) }
{
    let one = with(named(alloc, "node"), required(alloc, "ID"));
    let two = with(one, option(alloc, "turns"));
    let three = with(two, flag(alloc, "probe"));
    let four = with(three, option(alloc, "config"));
    let five = with(four, option(alloc, "dir"));
    with(five, option(alloc, "log"))
}

/// `check ID` and `check ID NODES CHAIN`, with the options `--config FILE` and `--dir FOLDER`.
pub(crate) fn check_command<'a>(alloc: Global) -> Result<Command<'a>, AllocError>
    ensures { IfOk result (IsSubcommand check_shape) }
{
    let one = with(named(alloc, "check"), required(alloc, "ID"));
    let two = with(one, optional(alloc, "NODES"));
    let three = with(two, optional(alloc, "CHAIN"));
    let four = with(three, option(alloc, "config"));
    with(four, option(alloc, "dir"))
}

/// `get URL`, with the options `--follow N`, `--from N` and `--token-file FILE` and the flag `--progress`.
pub(crate) fn get_command<'a>(alloc: Global) -> Result<Command<'a>, AllocError>
    ensures { IfOk result (IsSubcommand get_shape) }
{
    let one = with(named(alloc, "get"), required(alloc, "URL"));
    let two = with(one, option(alloc, "follow"));
    let three = with(two, option(alloc, "from"));
    let four = with(three, option(alloc, "token-file"));
    with(four, flag(alloc, "progress"))
}

/// `put URL`, with the flags `--append`, `--resume`, `--seal`, `--live` and `--progress` and the option `--token-file FILE`.
pub(crate) fn put_command<'a>(alloc: Global) -> Result<Command<'a>, AllocError>
    ensures { IfOk result (IsSubcommand put_shape) }
{
    let one = with(named(alloc, "put"), required(alloc, "URL"));
    let two = with(one, flag(alloc, "append"));
    let three = with(two, flag(alloc, "resume"));
    let four = with(three, flag(alloc, "seal"));
    let five = with(four, flag(alloc, "live"));
    let six = with(five, option(alloc, "token-file"));
    with(six, flag(alloc, "progress"))
}

/// `rules`, with the option `--config FILE`.
pub(crate) fn rules_command<'a>(alloc: Global) -> Result<Command<'a>, AllocError>
    ensures { IfOk result (IsSubcommand rules_shape) }
{
    with(named(alloc, "rules"), option(alloc, "config"))
}

/// A command of this name, without arguments.
fn named<'a>(alloc: Global, name: &'a str) -> Result<Command<'a>, AllocError>
    ensures { IfOk result (IsSubcommand (new_shape name.entry.now)) }
{
    Ok(Command::new(alloc, name))
}

/// A command with one more argument, if there was memory for it.
fn with<'a>(
    command: Result<Command<'a>, AllocError>,
    argument: Arg<'a>,
) -> Result<Command<'a>, AllocError>
    ensures { (shape : Shape) (rule : Rule) → IfOk command.entry (IsSubcommand shape) → IsArgument rule argument.entry
        → IfOk result (IsSubcommand (with_argument shape rule)) }
{
    command?.arg(argument)
}
