//! The texts on the program, its commands, and their usage.

ghost use Rattle.std.specs.Prelude.{◌<◌, length};

use crate::command_texts::{
    check_help, gen_help, get_help, merge_help, node_help, put_help, replay_help, rules_help,
};

/// The text for `--help`, by the first word: that of a command, or that of the program.
pub fn help(words: &[String]) -> &'static str
    ensures { 0 < length result.now }
{
    match words.first() {
        Some(word) => help_on(word.as_str()),
        None => program_help(),
    }
}

/// The text on this command, or that of the program if the word is no command.
fn help_on(word: &str) -> &'static str
    ensures { 0 < length result.now }
{
    match word {
        "replay" => replay_help(),
        "gen" => gen_help(),
        "merge" => merge_help(),
        "node" => node_help(),
        "check" => check_help(),
        "get" => get_help(),
        "put" => put_help(),
        "rules" => rules_help(),
        _ => program_help(),
    }
}

/// The text of the program.
fn program_help() -> &'static str
    ensures { 0 < length result.now }
{
    "\
overcast: multicast from one source over nodes that keep what they get

Node 1 is the source, and publishes bytes in groups. The other nodes form a tree
below it, and each passes on what it gets. Clients read groups over HTTP.

Usage: overcast node ID [--turns N] [--probe] [--log inputs|record|brief]
                     [--config FILE] [--dir FOLDER]
       overcast check ID [--config FILE] [--dir FOLDER]
       overcast check ID NODES CHAIN [--dir FOLDER]
       overcast get URL [--follow N] [--from N] [--token-file FILE] [--progress]
                    > CONTENT
       overcast put URL [--append | --resume] [--seal] [--live]
                    [--token-file FILE] [--progress] < CONTENT
       overcast rules [--config FILE]
       overcast replay [FILE] [--summary [--large]] > REPORT
       overcast gen SEED NODES EVENTS > SCHEDULE
       overcast merge < RECORDS > SCHEDULE
       overcast [COMMAND] --help
       overcast --version

Commands:
  node    runs a node of a network on its three files
  check   shows what the three files of a node hold
  get     downloads a group, once or as it grows
  put     publishes a file, or what a pipe brings, into a group
  rules   lists the access rules of a configuration
  replay  plays a schedule over nodes and a network in memory, and reports
  gen     writes a schedule that follows from a seed
  merge   makes one schedule of the records of running nodes

`overcast COMMAND --help` says more of each, with an example.

A number is decimal digits, with no sign and no zero in front.

Exit status:
  0  the work was done
  1  the input, the output, a disk or the link failed
  2  the words are not as under Usage, or a number is not in its range
  3  what was read has a fault: a line of a schedule or of a record, a key of a
     configuration, a file that is no journal, a frame of one, or a token
  4  out of memory
  5  a limit was passed
  6  nothing was got, or not all was published: a bad URL, a status, too many
     redirections, a bad reply, or a group of another length

With each status but 0, one line on standard error says why.
"
}

/// The text after the line `overcast: usage`, which lists the forms of the words.
pub fn usage() -> &'static str
    ensures { 0 < length result.now }
{
    "\
Usage: overcast node ID [--turns N] [--probe] [--log inputs|record|brief]
                     [--config FILE] [--dir FOLDER]
       overcast check ID [--config FILE] [--dir FOLDER]
       overcast check ID NODES CHAIN [--dir FOLDER]
       overcast get URL [--follow N] [--from N] [--token-file FILE] [--progress]
                    > CONTENT
       overcast put URL [--append | --resume] [--seal] [--live]
                    [--token-file FILE] [--progress] < CONTENT
       overcast rules [--config FILE]
       overcast replay [FILE] [--summary [--large]] > REPORT
       overcast gen SEED NODES EVENTS > SCHEDULE
       overcast merge < RECORDS > SCHEDULE
       overcast [COMMAND] --help
       overcast --version
"
}
