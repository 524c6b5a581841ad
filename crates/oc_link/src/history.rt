//! The history of one connection and of one dial, by the calls of a link.

ghost use Rattle.std.specs.Prelude.{◌≡◌, min, IfOk};
ghost use Rattle.oc_link.specs.Dials.{is_dialling, dialling};
ghost use Rattle.oc_link.specs.Stands as stands;
ghost use Rattle.oc_link.specs.Traffic as traffic;

use crate::call::Call;
use crate::event::LinkEvent;
use crate::ids::{ConnectionId, DialId};
use crate::phase::Standing;
use std::alloc::{AllocError, Global};

/// The state of a connection after these calls.
pub fn standing_of(calls: &[Call], connection: ConnectionId) -> Standing
    ensures { result ≡ stands.standing_of connection calls.now }
{
    let mut standing = Standing::untouched();
    for call in calls {
        standing = standing.after(connection, call);
    }
    standing
}

/// Whether a dial with this number is under way after these calls.
pub fn is_under_way(calls: &[Call], dial: DialId) -> bool
    ensures { result ≡ is_dialling dial calls.now }
{
    let mut dials = false;
    for call in calls {
        dials = is_under_way_after(call, dial, dials);
    }
    dials
}

/// Whether the dial is under way after one more call.
fn is_under_way_after(call: &Call, dial: DialId, was: bool) -> bool
    ensures { result ≡ dialling dial call.now was }
{
    match call {
        Call::Dial(number, _, _) => was || *number == dial,
        Call::Next(LinkEvent::Reply(number, _), _) => was && *number != dial,
        _ => was,
    }
}

/// Whether this event may come after these calls.
pub fn may(event: &LinkEvent, calls: &[Call]) -> bool
    ensures { result ≡ stands.may event.now calls.now }
{
    match event {
        LinkEvent::Request(arrival) => standing_of(calls, arrival.connection).may_request(
            arrival.number,
            arrival.permitted,
        ),
        LinkEvent::Room(connection) => standing_of(calls, *connection).may_want(),
        LinkEvent::Gone(connection, _) => standing_of(calls, *connection).may_go(),
        LinkEvent::Reply(dial, _) => is_under_way(calls, *dial),
        LinkEvent::Quiet => true,
    }
}

/// The bytes that came on a connection and were not taken yet.
pub fn held(alloc: Global, calls: &[Call], connection: ConnectionId) -> Result<Vec<u8>, AllocError>
    ensures { IfOk result (λ v. v.items ≡ traffic.held connection calls.now) }
{
    let read = read(alloc, calls, connection)?;
    let start = taken(calls, connection, read.len());
    read[start..].to_vec(alloc)
}

/// All bytes that came on a connection.
fn read(alloc: Global, calls: &[Call], connection: ConnectionId) -> Result<Vec<u8>, AllocError>
    ensures { IfOk result (λ v. v.items ≡ traffic.read connection calls.now) }
{
    let mut bytes = Vec::new(alloc);
    for call in calls {
        bytes.extend_from_slice(came_on(call, connection))?;
    }
    Ok(bytes)
}

/// The bytes that came on a connection by a call.
fn came_on(call: &Call, connection: ConnectionId) -> &[u8]
    ensures { result.now ≡ traffic.came_on connection call.now }
{
    match call {
        Call::Next(LinkEvent::Request(arrival), bytes) => {
            if arrival.connection == connection {
                bytes.items()
            } else {
                &[]
            }
        }
        _ => &[],
    }
}

/// The number of bytes of a connection that were taken, at most `most`.
fn taken(calls: &[Call], connection: ConnectionId, most: usize) -> usize
    ensures { result ≡ min (traffic.taken connection calls.now) most }
{
    let mut taken = 0;
    for call in calls {
        taken = taken_by(call, connection).saturating_add(taken).min(most);
    }
    taken
}

/// The number of bytes that a call took from a connection.
fn taken_by(call: &Call, connection: ConnectionId) -> usize
    ensures { result ≡ traffic.taken_by connection call.now }
{
    match call {
        Call::Take(of, count) => {
            if *of == connection {
                *count as usize
            } else {
                0
            }
        }
        _ => 0,
    }
}

/// All bytes that a connection was given to send.
pub fn given(alloc: Global, calls: &[Call], connection: ConnectionId) -> Result<Vec<u8>, AllocError>
    ensures { IfOk result (λ v. v.items ≡ traffic.given connection calls.now) }
{
    let mut bytes = Vec::new(alloc);
    for call in calls {
        bytes.extend_from_slice(given_by(call, connection))?;
    }
    Ok(bytes)
}

/// The bytes that a call gave a connection.
fn given_by(call: &Call, connection: ConnectionId) -> &[u8]
    ensures { result.now ≡ traffic.given_by connection call.now }
{
    match call {
        Call::Give(to, bytes) => {
            if *to == connection {
                bytes.items()
            } else {
                &[]
            }
        }
        _ => &[],
    }
}
