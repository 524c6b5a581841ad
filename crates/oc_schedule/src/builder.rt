ghost use Rattle.std.specs.Prelude.{◌≡◌, ◌≤◌, length, Some};
ghost use Rattle.oc_base.specs.Lawful.{IsNode};
ghost use Rattle.oc_base.specs.Words.{words};
ghost use Rattle.oc_base.specs.declared.limits.TheConstants.{MAX_SCHEDULE_SETTLES};
ghost use Rattle.oc_schedule.specs.Reading.{GivesBy, GivesLineBy, at_line};
ghost use Rattle.oc_schedule.specs.Schedule.{event_in_range, first_script, limited, read_statement, with_area, with_event, within_limits};
ghost use Rattle.oc_schedule.specs.Events.{event_of};
ghost use Rattle.oc_schedule.specs.Script.{published_in, settles_in};

use crate::fault::LineFault;
use crate::fields::is;
use crate::kept_event::KeptEvent;
use crate::lines::{area, event, opening};
use crate::{EventList, Scale, Schedule, ScheduleFault, What};
use oc_base::{MAX_PUBLISH_BYTES, MAX_SCHEDULE_SETTLES, NodeId, Why};
use oc_model::Header;
use std::alloc::Global;

/// The schedule of the lines so far, from the header on.
#[derive(Drop)]
pub(crate) struct ScheduleBuilder {
    schedule: Schedule,
    /// The bytes that the events publish.
    published: usize,
    /// The number of events that settle or heal.
    settles: u32,
    ghost counted: { published ≡ published_in schedule.events },
    ghost counted_settles: { settles ≡ settles_in schedule.events },
    ghost within_settles: { settles ≤ MAX_SCHEDULE_SETTLES },
    ghost areas: { length schedule.header.areas ≡ schedule.header.nodes },
}

impl ScheduleBuilder {
    /// The builder after the header.
    pub fn from_header(alloc: Global, line: &[u8]) -> Result<ScheduleBuilder, LineFault>
        ensures { GivesLineBy (λ d. d.schedule) result (first_script (words line.now)) }
    {
        let Ok(sizes) = opening(line) else {
            return Err(LineFault::Cause(Why::Header));
        };
        let areas = vec![in alloc; 0; sizes.nodes as usize]?;
        Ok(ScheduleBuilder {
            schedule: Schedule {
                header: Header { sizes, areas },
                events: EventList::new(alloc),
            },
            published: 0,
            settles: 0,
        })
    }

    /// The builder after one more line, which is not skipped and has this number, first word and fields.
    pub fn with_line(
        self,
        alloc: Global,
        scale: Scale,
        number: u32,
        word: &[u8],
        fields: &[u8],
    ) -> Result<ScheduleBuilder, ScheduleFault>
        ensures { GivesBy (λ d. d.schedule) result
            (read_statement scale number (Some self.schedule) word.now (words fields.now)) }
    {
        let nodes = self.schedule.header.sizes.nodes;
        if is(word, "area") && self.schedule.events.is_empty() {
            match area(nodes, fields) {
                Ok((node, area)) => Ok(self.with_area(node, area)),
                Err(why) => Err(ScheduleFault::Line { line: number, why }),
            }
        } else {
            match event(alloc, nodes, word, fields) {
                Ok(event) => self.with_event_at(scale, number, event),
                Err(fault) => Err(fault.at(number)),
            }
        }
    }

    /// The schedule, once all lines are read.
    pub fn into_schedule(self) -> Schedule
        ensures { result ≡ self.schedule }
    {
        let ScheduleBuilder { schedule, .. } = self;
        schedule
    }

    /// The builder with this area of a node.
    fn with_area(self, node: NodeId, area: u8) -> ScheduleBuilder
        requires { IsNode self.schedule.header.nodes node }
        ensures { result.schedule ≡ with_area self.schedule (node, area) }
    {
        let ScheduleBuilder {
            mut schedule,
            published,
            settles,
        } = self;
        schedule.header.areas[node.index()] = area;
        ScheduleBuilder {
            schedule,
            published,
            settles,
        }
    }

    /// The builder with the event of the line of this number, if the event publishes no more than one publish may
    /// and passes no limit.
    fn with_event_at(
        self,
        scale: Scale,
        number: u32,
        event: KeptEvent,
    ) -> Result<ScheduleBuilder, ScheduleFault>
        ensures { GivesBy (λ d. d.schedule) result
            (limited scale (at_line number (event_in_range scale self.schedule (event_of event)))) }
    {
        if scale.is_large() && event.published() > MAX_PUBLISH_BYTES {
            return Err(ScheduleFault::Line {
                line: number,
                why: Why::Range,
            });
        }
        self.with_event(scale, event)
    }

    /// The builder with one more event, if it passes no limit.
    fn with_event(self, scale: Scale, event: KeptEvent) -> Result<ScheduleBuilder, ScheduleFault>
        ensures { GivesBy (λ d. d.schedule) result
            (within_limits scale (with_event self.schedule (event_of event))) }
    {
        let ScheduleBuilder {
            mut schedule,
            published,
            settles,
        } = self;
        let published = published.saturating_add(event.published());
        if published > scale.published() {
            return Err(ScheduleFault::Limit(What::Published));
        }
        let once = event.settles();
        if once > MAX_SCHEDULE_SETTLES - settles {
            return Err(ScheduleFault::Limit(What::Settles));
        }
        schedule.events.push(event)?;
        Ok(ScheduleBuilder {
            schedule,
            published,
            settles: settles + once,
        })
    }
}
