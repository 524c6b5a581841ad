ghost use Rattle.std.specs.Prelude.{◌≡◌, ◌≤◌, ◌∷◌, IfOk, None};
ghost use Rattle.std.specs.Str.Lines.{lines};
ghost use Rattle.oc_schedule.specs.Builder.{script_of};
ghost use Rattle.oc_base.specs.Words.{words};
ghost use Rattle.oc_schedule.specs.declared.fault.What.TheVariants.{Lines};
ghost use Rattle.oc_schedule.specs.Limits.{most_of};
ghost use Rattle.oc_schedule.specs.Reading.{Gives, GivesBy, at_line};
ghost use Rattle.oc_schedule.specs.Schedule.{IsSchedule, first_script, limited, read_line, read_lines, read_statement, schedule_of};
ghost use Rattle.oc_schedule.specs.declared.scale.Scale.{Scale as ScaleValue};

use crate::builder::ScheduleBuilder;
use crate::{Scale, Schedule, ScheduleFault, What};
use oc_base::Why;
use oc_base::words::{first_line, first_word};
use std::alloc::Global;

/// Reads the text of a schedule, any bytes: the schedule, or its first fault.
///
/// A text of too many bytes is refused before all else. Then each line is refused in this order: where there are
/// too many lines, for the cause of the line, where too many bytes are published, where the line settles or heals
/// too often. A text without a header is refused at the line after its last. `scale` sets these limits.
pub fn read(alloc: Global, scale: Scale, bytes: &[u8]) -> Result<Schedule, ScheduleFault>
    ensures exact { Gives result (schedule_of scale bytes.now) }

    // The header and the events are within their ranges, and there are not too many events.
    ensures lawful { IfOk result (IsSchedule scale) }
{
    if bytes.len() > scale.most(What::Bytes) {
        return Err(ScheduleFault::Limit(What::Bytes));
    }
    read_lines(alloc, scale, bytes)
}

/// Reads the lines of a text, one after another.
fn read_lines(alloc: Global, scale: Scale, bytes: &[u8]) -> Result<Schedule, ScheduleFault>
    ensures { Gives result (read_lines scale 1 None (lines bytes.now)) }
{
    let most = scale.lines();
    let mut builder = None;
    let mut number = 1;
    let mut rest = bytes;
    'lines: while !rest.is_empty() {
        let (line, behind) = first_line(rest);
        if number > most {
            return Err(ScheduleFault::Limit(What::Lines));
        }
        builder = read_line(alloc, scale, builder, number, line)?;
        number += 1;
        rest = behind;
    }
    match builder {
        Some(builder) => Ok(builder.into_schedule()),
        None => Err(ScheduleFault::Line {
            line: number,
            why: Why::Header,
        }),
    }
}

/// The builder after one more line; there is none before the header.
fn read_line(
    alloc: Global,
    scale: Scale,
    builder: Option<ScheduleBuilder>,
    number: u32,
    line: &[u8],
) -> Result<Option<ScheduleBuilder>, ScheduleFault>
    requires { number ≤ most_of scale Lines }
    ensures { GivesBy script_of result (read_line scale number (script_of builder) line.now) }
{
    match first_word(line) {
        None | Some(([b'#', ..], _)) => Ok(builder),
        Some(found) => Ok(Some(read_statement(alloc, scale, builder, number, line, found)?)),
    }
}

/// The builder after a line that is not skipped, with this word and these fields.
fn read_statement(
    alloc: Global,
    scale: Scale,
    builder: Option<ScheduleBuilder>,
    number: u32,
    line: &[u8],
    found: (&[u8], &[u8]),
) -> Result<ScheduleBuilder, ScheduleFault>
    requires { words line.now ≡ found.0.now ∷ words found.1.now }
    ensures { GivesBy (λ d. d.schedule) result (read_statement scale number (script_of builder) found.entry.0.now (words found.entry.1.now)) }
{
    let (word, fields) = found;
    match builder {
        Some(builder) => builder.with_line(alloc, scale, number, word, fields),
        None => read_header(alloc, number, line),
    }
}

/// The builder after the header, which is the line of this number.
fn read_header(alloc: Global, number: u32, line: &[u8]) -> Result<ScheduleBuilder, ScheduleFault>
    ensures { (scale : ScaleValue) → GivesBy (λ d. d.schedule) result
        (limited scale (at_line number (first_script (words line.now)))) }
{
    match ScheduleBuilder::from_header(alloc, line) {
        Ok(builder) => Ok(builder),
        Err(fault) => Err(fault.at(number)),
    }
}
