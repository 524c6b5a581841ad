//! Lines that begin with `!`, and requests that are refused.

ghost use Rattle.std.specs.Prelude.{◌≡◌, OnOk, IfErr, Some, codes, is_some, option_map, true, unwrap_or};
ghost use Rattle.oc_link.specs.Told.{AddsAll};
ghost use Rattle.oc_io.specs.Faults.{NoFall};
ghost use Rattle.oc_deeds.specs.Deeds.{drop_line, note_line, refuses};
ghost use Rattle.oc_server.specs.Noting.{LineStops};

use oc_deeds::TurnEnd;
use oc_io::{Sink, write_all};
use oc_link::{ConnectionId, Ending, Link};

/// The line of a reply that could not be sent.
const WRITE_LINE: &[u8] = b"! write\n";

/// Gives a refusal. A connection that is kept has this many bytes of the request taken, and its next request is awaited; any
/// other has all taken that came on it, and ends. Where the refusal has no text the connection is broken off.
pub(crate) fn refuse<L: Link>(
    link: &mut L,
    connection: ConnectionId,
    came: u64,
    kept: Option<u64>,
    reply: Option<Vec<u8>>,
)
    ensures calls { AddsAll (refuses connection (unwrap_or kept came) (is_some kept) (option_map (λ text. text.items) reply)) (L.story link.old) (L.story link.new) }
    ensures counts { L.counts link.new ≡ L.counts link.old }
{
    match reply {
        Some(text) => refuse_by(
            link,
            connection,
            kept.unwrap_or(came),
            kept.is_some(),
            &text,
        ),
        None => link.break_off(connection),
    }
}

/// Takes this many bytes, and gives a refusal; then the next request is awaited where `keeps`, and else the connection ends.
fn refuse_by<L: Link>(link: &mut L, connection: ConnectionId, count: u64, keeps: bool, text: &[u8])
    ensures calls { AddsAll (refuses connection count keeps (Some text.now)) (L.story link.old) (L.story link.new) }
    ensures counts { L.counts link.new ≡ L.counts link.old }
{
    link.take(connection, count);
    link.give(connection, text);
    link.finish(
        connection,
        Ending {
            keeps,
            watched: false,
        },
    );
}

/// Writes the line of a reply that could not be sent, where `told`.
pub(crate) fn write_told<K: Sink>(sink: &mut K, told: bool) -> Result<(), TurnEnd>
    ensures wrote { OnOk result (K.takes sink.old (drop_line told) sink.new) }
    ensures count { NoFall (K.faults sink.old) (K.faults sink.new) }
    ensures stops { IfErr result (λ end. (told ≡ true) × LineStops K.fails K.faults end (note_line (codes "write")) sink.old sink.new) }
{
    if !told {
        return Ok(());
    }
    write_line(sink, WRITE_LINE)
}

/// Writes a line.
pub(crate) fn write_line<K: Sink>(sink: &mut K, line: &[u8]) -> Result<(), TurnEnd>
    ensures wrote { OnOk result (K.takes sink.old line.now sink.new) }
    ensures count { NoFall (K.faults sink.old) (K.faults sink.new) }
    ensures stops { IfErr result (λ end. LineStops K.fails K.faults end line.now sink.old sink.new) }
{
    match write_all(sink, line) {
        Ok(()) => Ok(()),
        Err(_) => Err(TurnEnd::Sink),
    }
}
