//! The arguments of a subcommand.
ghost use Rattle.std.specs.Prelude.{◌≡◌, IfOk, option_map};
ghost use Rattle.clap.specs.Words.{first_of, found_of, rows_of};
ghost use Rattle.oc_base.specs.Words.{GivesFields};
ghost use Rattle.oc_words.specs.Arguments.{is_flagged, word_of};
ghost use Rattle.oc_words.specs.Command.{IsArgument, flag_rule, option_rule, optional_rule, required_rule};

use crate::name::Name;
use clap::{Arg, ArgAction, ArgMatches};
use oc_base::Why;
use std::alloc::{AllocError, Global};

/// A required argument: one word in its place.
pub(crate) fn required<'a>(alloc: Global, id: &'a str) -> Arg<'a>
    ensures { IsArgument (required_rule id.entry.now) result }
{
    Arg::new(alloc, id).required(true)
}

/// A flag: two hyphens and its id.
pub(crate) fn flag<'a>(alloc: Global, id: &'a str) -> Arg<'a>
    ensures { IsArgument (flag_rule id.entry.now) result }
{
    Arg::new(alloc, id).long(id).action(ArgAction::SetTrue)
}

/// An option: two hyphens and its id, and one word after them.
pub(crate) fn option<'a>(alloc: Global, id: &'a str) -> Arg<'a>
    ensures { IsArgument (option_rule id.entry.now) result }
{
    Arg::new(alloc, id).long(id)
}

/// An optional argument: one word in its place.
pub(crate) fn optional<'a>(alloc: Global, id: &'a str) -> Arg<'a>
    ensures { IsArgument (optional_rule id.entry.now) result }
{
    Arg::new(alloc, id)
}

/// Whether a flag was given.
pub(crate) fn is_flagged(matches: &ArgMatches<'_>, id: &str) -> bool
    ensures { result ≡ is_flagged id.now (rows_of (found_of matches.now)) }
{
    match matches.get_str(id) {
        Some(word) => word == "true",
        None => false,
    }
}

/// The word of an argument, if one was given.
pub(crate) fn given<'a>(matches: &ArgMatches<'a>, id: &str) -> Option<&'a str>
    ensures { option_map (λ word. word.now) result ≡ first_of id.now (rows_of (found_of matches.now)) }
{
    matches.get_str(id)
}

/// The word of a required argument.
pub(crate) fn word<'a>(matches: &ArgMatches<'a>, id: &str) -> Result<&'a str, Why>
    ensures { GivesFields (λ word. word.now) result (word_of id.now (rows_of (found_of matches.now))) }
{
    matches.get_str(id).ok_or(Why::Count)
}

/// A copy of the word of an argument, if one was given.
pub(crate) fn copied(
    alloc: Global,
    matches: &ArgMatches<'_>,
    id: &str,
) -> Result<Option<Name>, AllocError>
    ensures { IfOk result (λ name. name ≡ first_of id.now (rows_of (found_of matches.now))) }
{
    match given(matches, id) {
        Some(word) => Ok(Some(Name::of(alloc, word)?)),
        None => Ok(None),
    }
}
