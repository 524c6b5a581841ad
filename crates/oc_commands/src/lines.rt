//! The lines on the error output that tell how a run ended. They take no memory, so that they can
//! be written when memory ran out.

ghost use Rattle.std.specs.Prelude.{◌≡◌, [], option_map};
ghost use Rattle.oc_config.specs.Keys.{key_text};
ghost use Rattle.oc_commands.specs.Lines.{blame_line, cause_text, file_text, input_failed, limit_line, line, line_in, line_of_check, line_of_config, line_of_configured, line_of_fault, line_of_gen};
ghost use Rattle.oc_commands.specs.Lines.{line_of_load, line_of_merged, line_of_records, line_of_replay, line_of_rules, line_of_run, side_text};
ghost use Rattle.oc_commands.specs.Lines.{line_of_service, line_of_turns, long_line, short_line, stranger_line, text_of};

use crate::checking::{CheckEnd, ConfiguredEnd};
use crate::configuring::ConfigEnd;
use crate::generating::GenEnd;
use crate::listing::RulesEnd;
use crate::merging::RecordsEnd;
use crate::serving::ServiceEnd;
use itoa::Buffer;
use oc_base::Why;
use oc_config::{ConfigFault, ConfigKey, SectionName};
use oc_keep::{FileError, KeepLoad, Side};
use oc_merge::{Cause, MergeEnd};
use oc_replay::ReplayEnd;
use oc_schedule::{Scale, What};
use oc_service::{NodeEnd, TurnEnd};

/// Buffers for the digits of the numbers in a line.
#[derive(Drop)]
pub(crate) struct Digits {
    pub(crate) first: Buffer,
    second: Buffer,
}

impl Digits {
    pub(crate) fn new() -> Digits {
        Digits {
            first: Buffer::new(),
            second: Buffer::new(),
        }
    }
}

/// A line in parts, some of which are empty.
#[derive(Clone, Copy)]
pub(crate) struct ErrorLine<'a> {
    pub(crate) first: &'a str,
    pub(crate) second: &'a str,
    pub(crate) third: &'a str,
    pub(crate) fourth: &'a str,
    pub(crate) fifth: &'a [u8],
    /// The end of a line, or nothing.
    pub(crate) end: &'a str,
}

/// No line.
pub(crate) fn no_line<'a>() -> ErrorLine<'a>
    ensures { text_of result ≡ [] }
{
    ErrorLine {
        first: "",
        second: "",
        third: "",
        fourth: "",
        fifth: &[],
        end: "",
    }
}

/// A line of this text alone.
pub(crate) fn short_line(text: &str) -> ErrorLine<'_>
    ensures { text_of result ≡ short_line text.entry.now }
{
    with_word(text, "")
}

/// The line for an end of a replay.
pub(crate) fn line_of_replay<'a>(
    scale: Scale,
    end: ReplayEnd,
    file: Option<&'a str>,
    digits: &'a mut Digits,
) -> ErrorLine<'a>
    ensures { text_of result ≡ line_of_replay (option_map (λ name. name.now) file.entry) scale end }
{
    match end {
        ReplayEnd::Done => no_line(),
        ReplayEnd::Text { line, why } => ErrorLine {
            first: "overcast: line ",
            second: digits.first.format(line),
            third: ": ",
            fourth: why.word(),
            fifth: &[],
            end: "\n",
        },
        ReplayEnd::Limit(what) => limit_line(scale, what, digits),
        ReplayEnd::Source => input_failed(file),
        ReplayEnd::Sink => short_line("overcast: output failed"),
        ReplayEnd::Memory => short_line("overcast: out of memory"),
    }
}

/// The line for an input that failed, with its name if it is a file.
pub(crate) fn input_failed(file: Option<&str>) -> ErrorLine<'_>
    ensures { text_of result ≡ input_failed (option_map (λ name. name.now) file.entry) }
{
    match file {
        None => short_line("overcast: input failed"),
        Some(name) => with_word("overcast: input failed: ", name),
    }
}

/// The line for a limit that was exceeded.
pub(crate) fn limit_line(scale: Scale, what: What, digits: &mut Digits) -> ErrorLine<'_>
    ensures { text_of result ≡ limit_line scale what }
{
    ErrorLine {
        first: "overcast: limit ",
        second: what.word(),
        third: " ",
        fourth: digits.first.format(scale.most(what)),
        fifth: &[],
        end: "\n",
    }
}

/// The line that names a line of the input and its fault.
fn blame_line<'a>(number: u32, why: &'static str, digits: &'a mut Digits) -> ErrorLine<'a>
    ensures { text_of result ≡ blame_line number why.now }
{
    ErrorLine {
        first: "overcast: line ",
        second: digits.first.format(number),
        third: ": ",
        fourth: why,
        fifth: &[],
        end: "\n",
    }
}

/// The line for an end of `merge`.
pub(crate) fn line_of_records(end: RecordsEnd, digits: &mut Digits) -> ErrorLine<'_>
    ensures { text_of result ≡ line_of_records end }
{
    match end {
        RecordsEnd::Merged(end) => line_of_merged(end, digits),
        RecordsEnd::Text { line, cause } => blame_line(line, cause_word(cause), digits),
        RecordsEnd::Limit(most) => ErrorLine {
            first: "overcast: limit ",
            second: most.word(),
            third: " ",
            fourth: digits.first.format(most.most()),
            fifth: &[],
            end: "\n",
        },
        RecordsEnd::Source => short_line("overcast: input failed"),
        RecordsEnd::Sink => short_line("overcast: output failed"),
        RecordsEnd::Memory => short_line("overcast: out of memory"),
    }
}

/// The line for a merge, which names the first line that was not taken and blocks others.
fn line_of_merged(end: MergeEnd, digits: &mut Digits) -> ErrorLine<'_>
    ensures { text_of result ≡ line_of_merged end }
{
    match end {
        MergeEnd::Whole => no_line(),
        MergeEnd::State { line } => blame_line(line, "state", digits),
        MergeEnd::Unsent { line } => blame_line(line, "unsent", digits),
    }
}

/// The word for the reason why a line of records is refused.
fn cause_word(cause: Cause) -> &'static str
    ensures { result.now ≡ cause_text cause }
{
    match cause {
        Cause::Said(why) => why.word(),
        Cause::Areas => "area",
    }
}

/// The line for an end of `gen`.
pub(crate) fn line_of_gen<'a>(end: GenEnd) -> ErrorLine<'a>
    ensures { text_of result ≡ line_of_gen end }
{
    match end {
        GenEnd::Done => no_line(),
        GenEnd::Sink => short_line("overcast: output failed"),
        GenEnd::Memory => short_line("overcast: out of memory"),
    }
}

/// The line for an end of `rules`.
pub(crate) fn line_of_rules<'a>(
    end: &'a RulesEnd,
    file: Option<&'a str>,
    digits: &'a mut Digits,
) -> ErrorLine<'a>
    ensures { text_of result ≡ line_of_rules (option_map (λ name. name.now) file.entry) end.now }
{
    match end {
        RulesEnd::Done => no_line(),
        RulesEnd::Config(end) => line_of_config(end, file, digits),
        RulesEnd::Sink => short_line("overcast: output failed"),
        RulesEnd::Memory => short_line("overcast: out of memory"),
    }
}

/// The line for a configuration that could not be read.
pub(crate) fn line_of_config<'a>(
    end: &'a ConfigEnd,
    file: Option<&'a str>,
    digits: &'a mut Digits,
) -> ErrorLine<'a>
    ensures { text_of result ≡ line_of_config (option_map (λ name. name.now) file.entry) end.now }
{
    match end {
        ConfigEnd::Source => input_failed(file),
        ConfigEnd::Long => limit_line(Scale::Usual, What::Bytes, digits),
        ConfigEnd::Fault(fault) => line_of_fault(fault, digits),
    }
}

/// The line for a fault of a configuration.
fn line_of_fault<'a>(fault: &'a ConfigFault, digits: &'a mut Digits) -> ErrorLine<'a>
    ensures { text_of result ≡ line_of_fault fault.now }
{
    let Digits { first, second } = digits;
    match fault {
        ConfigFault::Toml(line) => toml_line(*line, first),
        ConfigFault::Missing(place, key) => key_line(*place, "missing ", *key, first),
        ConfigFault::Value(place, key) => key_line(*place, "value ", *key, first),
        ConfigFault::Repeat(place, id) => {
            line_in(*place, "repeat ", second.format(*id).as_bytes(), first)
        }
        ConfigFault::Measure { line, why } => measure_line(*line, *why, first),
        ConfigFault::Unknown(place, name) => line_in(*place, "unknown ", name.bytes(), first),
        ConfigFault::Memory => short_line("overcast: out of memory"),
    }
}

/// The line for a fault in a section of a configuration.
fn line_in<'a>(
    place: SectionName,
    fault: &'a str,
    text: &'a [u8],
    digits: &'a mut Buffer,
) -> ErrorLine<'a>
    ensures { text_of result ≡ line_in place fault.entry.now text.entry.now }
{
    match place {
        SectionName::Top => ErrorLine {
            first: "overcast: config: ",
            second: fault,
            third: "",
            fourth: "",
            fifth: text,
            end: "\n",
        },
        SectionName::Node(number) => ErrorLine {
            first: "overcast: config: node ",
            second: digits.format(number),
            third: ": ",
            fourth: fault,
            fifth: text,
            end: "\n",
        },
        SectionName::Rule(number) => ErrorLine {
            first: "overcast: config: rule ",
            second: digits.format(number),
            third: ": ",
            fourth: fault,
            fifth: text,
            end: "\n",
        },
    }
}

/// The line for a fault of a key.
fn key_line<'a>(
    place: SectionName,
    fault: &'a str,
    key: ConfigKey,
    digits: &'a mut Buffer,
) -> ErrorLine<'a>
    ensures { text_of result ≡ line_in place fault.entry.now (key_text key) }
{
    match place {
        SectionName::Top => ErrorLine {
            first: "overcast: config: ",
            second: fault,
            third: "",
            fourth: key.word(),
            fifth: &[],
            end: "\n",
        },
        SectionName::Node(number) => ErrorLine {
            first: "overcast: config: node ",
            second: digits.format(number),
            third: ": ",
            fourth: fault,
            fifth: key.word().as_bytes(),
            end: "\n",
        },
        SectionName::Rule(number) => ErrorLine {
            first: "overcast: config: rule ",
            second: digits.format(number),
            third: ": ",
            fourth: fault,
            fifth: key.word().as_bytes(),
            end: "\n",
        },
    }
}

/// The line for a text that is not TOML.
fn toml_line(line: u64, digits: &mut Buffer) -> ErrorLine<'_>
    ensures { text_of result ≡ line_of_fault (ConfigFault.Toml line) }
{
    with_word("overcast: config: toml line ", digits.format(line))
}

/// The line for a bad line of the measures.
fn measure_line(line: u32, why: Why, digits: &mut Buffer) -> ErrorLine<'_>
    ensures { text_of result ≡ line_of_fault (ConfigFault.Measure line why) }
{
    ErrorLine {
        first: "overcast: config: measure ",
        second: digits.format(line),
        third: ": ",
        fourth: why.word(),
        fifth: &[],
        end: "\n",
    }
}

/// A line of a text and a word after it.
pub(crate) fn with_word<'a>(text: &'a str, word: &'a str) -> ErrorLine<'a>
    ensures { text_of result ≡ line text.entry.now word.entry.now [] [] }
{
    ErrorLine {
        first: text,
        second: word,
        third: "",
        fourth: "",
        fifth: &[],
        end: "\n",
    }
}

/// The line for an end of `check`.
pub(crate) fn line_of_check(end: CheckEnd, digits: &mut Digits) -> ErrorLine<'_>
    ensures { text_of result ≡ line_of_check end }
{
    match end {
        CheckEnd::Done => no_line(),
        CheckEnd::Load(error) => line_of_load(error, digits),
        CheckEnd::Sink => short_line("overcast: output failed"),
    }
}

/// The line for an end of `check` for a node of a configuration.
pub(crate) fn line_of_configured<'a>(
    end: &'a ConfiguredEnd,
    file: Option<&'a str>,
    digits: &'a mut Digits,
) -> ErrorLine<'a>
    ensures { text_of result ≡ line_of_configured (option_map (λ name. name.now) file.entry) end.now }
{
    match end {
        ConfiguredEnd::Config(end) => line_of_config(end, file, digits),
        ConfiguredEnd::Stranger => stranger_line(),
        ConfiguredEnd::Checked(end) => line_of_check(*end, digits),
    }
}

/// The line for an id that no node of the configuration has, or for `node` no node with an address.
fn stranger_line<'a>() -> ErrorLine<'a>
    ensures { text_of result ≡ stranger_line }
{
    ErrorLine {
        first: "overcast: config: value ",
        second: ConfigKey::Id.word(),
        third: "",
        fourth: "",
        fifth: &[],
        end: "\n",
    }
}

/// The line for a node that was not loaded.
pub(crate) fn line_of_load(error: KeepLoad, digits: &mut Digits) -> ErrorLine<'_>
    ensures { text_of result ≡ line_of_load error }
{
    let word = file_word(error);
    match error.cause() {
        FileError::Disk => short_line("overcast: disk failed"),
        FileError::NotJournal => ErrorLine {
            first: "overcast: ",
            second: word,
            third: ": not a journal",
            fourth: "",
            fifth: &[],
            end: "\n",
        },
        FileError::BadFrame(number) => ErrorLine {
            first: "overcast: ",
            second: word,
            third: ": frame ",
            fourth: digits.first.format(number),
            fifth: &[],
            end: "\n",
        },
        FileError::Memory => short_line("overcast: out of memory"),
    }
}

/// The word for the file from which a node was not loaded; none if memory ran out elsewhere.
fn file_word(error: KeepLoad) -> &'static str
    ensures { result.now ≡ file_text error }
{
    match error {
        KeepLoad::Store(error) => side_word(error.side),
        KeepLoad::Content(_) => "content",
        KeepLoad::Memory => "",
    }
}

/// The word for a control file.
fn side_word(side: Side) -> &'static str
    ensures { result.now ≡ side_text side }
{
    match side {
        Side::First => "control",
        Side::Second => "alternate",
    }
}

/// The line for an end of `node`.
pub(crate) fn line_of_service<'a>(
    end: &'a ServiceEnd,
    file: Option<&'a str>,
    digits: &'a mut Digits,
) -> ErrorLine<'a>
    ensures { text_of result ≡ line_of_service (option_map (λ name. name.now) file.entry) end.now }
{
    match end {
        ServiceEnd::Config(end) => line_of_config(end, file, digits),
        ServiceEnd::Stranger => stranger_line(),
        ServiceEnd::Ran(end) => line_of_run(*end, digits),
    }
}

/// The line for the end of a node's run.
fn line_of_run(end: NodeEnd, digits: &mut Digits) -> ErrorLine<'_>
    ensures { text_of result ≡ line_of_run end }
{
    match end {
        NodeEnd::Load(error) => line_of_load(error, digits),
        NodeEnd::Turned(end) => line_of_turns(end),
    }
}

/// The line for the end of a node's turns.
fn line_of_turns<'a>(end: TurnEnd) -> ErrorLine<'a>
    ensures { text_of result ≡ line_of_turns end }
{
    match end {
        TurnEnd::Served => no_line(),
        TurnEnd::Link => short_line("overcast: link failed"),
        TurnEnd::Disk => short_line("overcast: disk failed"),
        TurnEnd::Full => short_line("overcast: limit journal 281474976710656"),
        TurnEnd::Sink => short_line("overcast: output failed"),
        TurnEnd::Memory => short_line("overcast: out of memory"),
    }
}
