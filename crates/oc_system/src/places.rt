use crate::connection::{Claim, Connection};
use crate::limits::PLACES;
use std::alloc::{AllocError, Global};

/// The connections, each at a place of its own: so a ready connection is found at once, however
/// many others there are. The number of a connection names its place, and is never used again.
#[derive(Drop)]
pub(crate) struct ConnectionPlaces {
    slots: Vec<Option<Connection>>,
    /// The free places.
    free: Vec<usize>,
    last_round: u64,
}

impl ConnectionPlaces {
    /// All places free.
    pub(crate) fn new(alloc: Global) -> Result<ConnectionPlaces, AllocError> {
        let mut slots = Vec::with_capacity(alloc, PLACES)?;
        let mut free = Vec::with_capacity(alloc, PLACES)?;
        for place in 0..PLACES {
            // There is room for each place.
            let _kept = slots.push(None).is_ok();
            let _noted = free.push(place).is_ok();
        }
        Ok(ConnectionPlaces {
            slots,
            free,
            last_round: 0,
        })
    }

    pub(crate) fn are_full(&self) -> bool {
        self.free.is_empty()
    }

    /// Whether there is no connection.
    pub(crate) fn are_empty(&self) -> bool {
        self.free.len() >= PLACES
    }

    /// Reserves a free place, and gives it with the number of the connection that comes there.
    pub(crate) fn reserve(&mut self) -> Option<(usize, u64)> {
        let place = self.free.pop()?;
        self.last_round = self.last_round.saturating_add(1);
        let id = self
            .last_round
            .saturating_mul(PLACES as u64)
            .saturating_add(place as u64);
        Some((place, id))
    }

    /// Puts a connection at its reserved place.
    pub(crate) fn put(&mut self, place: usize, connection: Connection) {
        if let Some(slot) = self.slots.get_mut(place) {
            *slot = Some(connection);
        }
    }

    /// The place of the connection with this number, as long as it is there.
    pub(crate) fn place_of(&self, id: u64) -> Option<usize> {
        let place = (id % PLACES as u64) as usize;
        let connection = self.get(place)?;
        (connection.id == id).then_some(place)
    }

    pub(crate) fn get(&self, place: usize) -> Option<&Connection> {
        self.slots.get(place)?.as_ref()
    }

    pub(crate) fn get_mut(&mut self, place: usize) -> Option<&mut Connection> {
        self.slots.get_mut(place)?.as_mut()
    }

    /// Takes the connection out of its place, and frees the place.
    pub(crate) fn remove(&mut self, place: usize) -> Option<Connection> {
        let connection = self.slots.get_mut(place)?.take()?;
        // There is room for each place.
        let _noted = self.free.push(place).is_ok();
        Some(connection)
    }

    /// The place of the connection that gives way first, if one may be asked to.
    pub(crate) fn first_to_yield(&self) -> Option<usize> {
        let mut first: Option<(usize, Claim)> = None;
        for place in 0..self.slots.len() {
            let Some(claim) = self.claim_at(place) else {
                continue;
            };
            let is_first = match &first {
                Some((_, least)) => claim < *least,
                None => true,
            };
            if is_first {
                first = Some((place, claim));
            }
        }
        let (place, _) = first?;
        Some(place)
    }

    /// A place whose large request has used up its time, if there is one.
    pub(crate) fn slow_one(&self, now: u64) -> Option<usize> {
        for place in 0..self.slots.len() {
            if let Some(connection) = self.get(place) {
                if connection.is_slow(now) {
                    return Some(place);
                }
            }
        }
        None
    }

    fn claim_at(&self, place: usize) -> Option<Claim> {
        self.get(place)?.claim()
    }
}
