//! The text of a schedule.

ghost use Rattle.std.specs.Prelude.{◌≡◌, ◌<◌, [], ◌∷◌, ◌++◌, Ok, Some, OnOk, IfOk, length, slice_get, codes, decimal};
ghost use Rattle.oc_model.specs.declared.event.Event.{Event};
ghost use Rattle.oc_schedule.specs.Lines.{area_words, event_words, header_with, header_words};
ghost use Rattle.oc_schedule.specs.Texts.{line_text, spaced};
ghost use Rattle.oc_schedule.specs.Printing.{IsPrintable, area_text, areas_text, events_text, script_text};
ghost use Rattle.oc_schedule.specs.Schedule.{schedule_of};
ghost use Rattle.oc_schedule.specs.declared.scale.Scale.{Scale as ScaleValue};

use crate::lines::put_event;
use crate::texts::put_number_field;
use crate::{EventList, Schedule};
use oc_base::{Memory, USUAL_CHUNK_BYTES, put};
use oc_model::{Event, Sizes};
use std::alloc::Global;

/// Writes the text of a schedule: the header, a line for each area that is not 0, ascending, and a line for each
/// event. Reading the text gives the same schedule at each scale whose limits it is within.
pub fn print(alloc: Global, schedule: &Schedule) -> Result<Vec<u8>, Memory>
    ensures text { IfOk result (λ text. text.items ≡ script_text schedule.now) }
    ensures read_back { (scale : ScaleValue) → IsPrintable scale schedule.now → IfOk result (λ text. schedule_of scale text.items ≡ Ok schedule.now) }
{
    let mut out = Vec::new(alloc);
    put_schedule(&mut out, schedule)?;
    Ok(out)
}

/// Puts the text of a schedule.
fn put_schedule(out: &mut Vec<u8>, schedule: &Schedule) -> Result<(), Memory>
    ensures { OnOk result (out.new.items ≡ out.old.items ++ script_text schedule.now) }
{
    put_header(out, schedule.header.sizes)?;
    put_areas(out, &schedule.header.areas)?;
    put_events(out, &schedule.events)?;
    Ok(())
}

fn put_header(out: &mut Vec<u8>, sizes: Sizes) -> Result<(), Memory>
    ensures { OnOk result (out.new.items ≡ out.old.items ++ line_text (header_words sizes.nodes sizes.chain sizes.chunk)) }
{
    if sizes.chunk != USUAL_CHUNK_BYTES {
        put_long_header(out, sizes)
    } else {
        put_short_header(out, sizes)
    }
}

/// Puts a header with the greatest number of bytes of a chunk.
fn put_long_header(out: &mut Vec<u8>, sizes: Sizes) -> Result<(), Memory>
    ensures { OnOk result (out.new.items ≡ out.old.items ++ line_text (header_with sizes.nodes sizes.chain (codes "chunk" ∷ decimal sizes.chunk ∷ []))) }
{
    put_front(out, sizes)?;
    put(out, b" chunk")?;
    put_number_field(out, u64::from(sizes.chunk))?;
    put(out, b"\n")
}

/// Puts a header without the greatest number of bytes of a chunk.
fn put_short_header(out: &mut Vec<u8>, sizes: Sizes) -> Result<(), Memory>
    ensures { OnOk result (out.new.items ≡ out.old.items ++ line_text (header_with sizes.nodes sizes.chain [])) }
{
    put_front(out, sizes)?;
    put(out, b"\n")
}

/// Puts the front of both kinds of headers.
fn put_front(out: &mut Vec<u8>, sizes: Sizes) -> Result<(), Memory>
    ensures { OnOk result (out.new.items ≡ out.old.items ++ spaced (header_with sizes.nodes sizes.chain [])) }
{
    put(out, b"overcast 1 nodes")?;
    put_number_field(out, u64::from(sizes.nodes))?;
    put(out, b" chain")?;
    put_number_field(out, u64::from(sizes.chain))
}

/// Puts the lines of areas that are not 0.
fn put_areas(out: &mut Vec<u8>, areas: &[u8]) -> Result<(), Memory>
    ensures { OnOk result (out.new.items ≡ out.old.items ++ areas_text 1 areas.now) }
{
    for (index, area) in areas.iter().enumerate() {
        put_area(out, index as u64 + 1, *area)?;
    }
    Ok(())
}

/// Puts the line of an area, unless the area is 0.
fn put_area(out: &mut Vec<u8>, node: u64, area: u8) -> Result<(), Memory>
    ensures { OnOk result (out.new.items ≡ out.old.items ++ area_text node area) }
{
    if area != 0 {
        put_area_line(out, node, area)
    } else {
        Ok(())
    }
}

/// Puts the line of an area.
fn put_area_line(out: &mut Vec<u8>, node: u64, area: u8) -> Result<(), Memory>
    ensures { OnOk result (out.new.items ≡ out.old.items ++ line_text (area_words node area)) }
{
    put(out, b"area")?;
    put_number_field(out, node)?;
    put_number_field(out, u64::from(area))?;
    put(out, b"\n")
}

/// Puts the line of the event at a place.
fn put_event_at(out: &mut Vec<u8>, events: &EventList, place: usize) -> Result<(), Memory>
    requires { place < length events.now }
    ensures { (e : Event) → slice_get events.now place ≡ Some e → OnOk result (out.new.items ≡ out.old.items ++ line_text (event_words e)) }
{
    let event = events.event(place);
    let done = put_line(out, event.get());
    // Dropped by a call, the event costs one proof; dropped at the end of its scope it costs one for each kind.
    drop(event);
    done
}

/// Puts the line of an event.
fn put_line(out: &mut Vec<u8>, event: &Event) -> Result<(), Memory>
    ensures { OnOk result (out.new.items ≡ out.old.items ++ line_text (event_words event.now)) }
{
    put_event(out, event)?;
    put(out, b"\n")
}

/// Puts the lines of events.
fn put_events(out: &mut Vec<u8>, events: &EventList) -> Result<(), Memory>
    ensures { OnOk result (out.new.items ≡ out.old.items ++ events_text events.now) }
{
    for place in 0..events.len() {
        put_event_at(out, events, place)?;
    }
    Ok(())
}
