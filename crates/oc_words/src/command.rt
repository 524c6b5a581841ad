//! The command with which `clap` parses the words of the program.
ghost use Rattle.std.specs.Prelude.{◌≡◌, IfOk};
ghost use Rattle.clap.specs.Words.{App, Shape, app_of, with_subcommand};
ghost use Rattle.oc_words.specs.Command.{IsSubcommand, bare_command, command, local_command, serving_command, stateless_command};

use crate::subcommands::{
    check_command, gen_command, get_command, merge_command, node_command, put_command,
    replay_command, rules_command,
};
use clap::Command;
use std::alloc::{AllocError, Global};

/// The version of the program.
pub const VERSION: &str = "1.0.0";

/// The command, with each of its subcommands.
pub fn command<'a>(alloc: Global) -> Result<Command<'a>, AllocError>
    ensures { IfOk result (λ c. app_of c ≡ command) }
{
    let serving = serving_command(alloc);
    with(with(serving, get_command(alloc)), put_command(alloc))
}

/// The command with all subcommands except those of a client.
fn serving_command<'a>(alloc: Global) -> Result<Command<'a>, AllocError>
    ensures { IfOk result (λ c. app_of c ≡ serving_command) }
{
    with(local_command(alloc), node_command(alloc))
}

/// The command with the subcommands that make no connection.
fn local_command<'a>(alloc: Global) -> Result<Command<'a>, AllocError>
    ensures { IfOk result (λ c. app_of c ≡ local_command) }
{
    let stateless = stateless_command(alloc);
    with(with(stateless, check_command(alloc)), rules_command(alloc))
}

/// The command with the subcommands that take no part in a network.
fn stateless_command<'a>(alloc: Global) -> Result<Command<'a>, AllocError>
    ensures { IfOk result (λ c. app_of c ≡ stateless_command) }
{
    let bare = Ok(bare_command(alloc));
    let replaying = with(bare, replay_command(alloc));
    with(with(replaying, gen_command(alloc)), merge_command(alloc))
}

/// A command with one more subcommand, if there was memory for both.
fn with<'a>(
    command: Result<Command<'a>, AllocError>,
    subcommand: Result<Command<'a>, AllocError>,
) -> Result<Command<'a>, AllocError>
    ensures { (app : App) (shape : Shape) → IfOk command.entry (λ c. app_of c ≡ app) → IfOk subcommand.entry (IsSubcommand shape)
        → IfOk result (λ c. app_of c ≡ with_subcommand app shape) }
{
    command?.subcommand(subcommand?)
}

/// The command without its subcommands, for words without the program's name in front.
fn bare_command<'a>(alloc: Global) -> Command<'a>
    ensures { app_of result ≡ bare_command }
{
    Command::new(alloc, "overcast")
        .version(VERSION)
        .no_binary_name(true)
        .disable_help_subcommand(true)
        .subcommand_required(true)
}
