//! Suggestions for words that are refused.

ghost use Rattle.std.specs.Prelude.{◌≡◌, None, IfSome};
ghost use Rattle.oc_words.specs.Words.{asked, texts_of};

use crate::command::command;
use crate::words::{WordsFault, read_words};
use std::alloc::Global;

/// The suggestion of `clap` for words that make no request, in its own words: `a similar subcommand
/// exists: 'node'`. `None` also if there is no memory for it. No promise is made about the text.
pub fn tip(alloc: Global, words: &[String]) -> Option<String>
    ensures { IfSome result (λ _. asked (texts_of words.now) ≡ None) }
{
    match read_words(alloc, words) {
        Err(WordsFault::Usage) => tip_of_clap(alloc, words),
        _ => None,
    }
}

/// The line of `clap`'s message that has the suggestion.
fn tip_of_clap(alloc: Global, words: &[String]) -> Option<String> {
    let error = command(alloc).ok()?.try_get_matches_from(words).err()?;
    let message = format!(in alloc; "{error}").ok()?;
    let tip = message.as_str().lines().find_map(similar)?;
    String::from_str(alloc, tip).ok()
}

/// The suggestion of similar words in a line of `clap`; its other tips are left out.
fn similar(line: &str) -> Option<&str> {
    line.strip_prefix("  tip: ")
        .filter(|tip| tip.contains(" similar "))
}
