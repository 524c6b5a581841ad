use std::alloc::{AllocError, Global};
use std::collections::VecDeque;

/// The places that are to be looked at, each once. Places that ask and places that are answered
/// wait in two lists, each in order of arrival, and the lists take turns: so a crowd that reads
/// delays no request, and a crowd that asks no reply.
#[derive(Drop)]
pub(crate) struct TurnQueue {
    asking: VecDeque<usize>,
    answered: VecDeque<usize>,
    /// Whether a place that asks is next, if there is one.
    asking_is_next: bool,
    /// Whether each place is in one of the lists.
    queued: Vec<bool>,
}

impl TurnQueue {
    /// Begins with empty lists. The memory for all places is taken.
    pub(crate) fn new(alloc: Global, places: usize) -> Result<TurnQueue, AllocError> {
        Ok(TurnQueue {
            asking: VecDeque::with_capacity(alloc, places)?,
            answered: VecDeque::with_capacity(alloc, places)?,
            asking_is_next: true,
            queued: Vec::from_elem(alloc, false, places)?,
        })
    }

    /// Appends a place to the list of those that are answered.
    pub(crate) fn push(&mut self, place: usize) {
        if self.enter(place) {
            // There is room for each place once.
            let _noted = self.answered.push_back(place).is_ok();
        }
    }

    /// Appends a place to the list of those that ask.
    pub(crate) fn push_asking(&mut self, place: usize) {
        if self.enter(place) {
            let _noted = self.asking.push_back(place).is_ok();
        }
    }

    /// Notes that a place is in a list, and gives whether it was in none.
    fn enter(&mut self, place: usize) -> bool {
        match self.queued.get_mut(place) {
            Some(queued) if !*queued => {
                *queued = true;
                true
            }
            _ => false,
        }
    }

    /// The place that has waited longest in the list whose turn it is.
    pub(crate) fn pop(&mut self) -> Option<usize> {
        let asks = !self.asking.is_empty() && (self.asking_is_next || self.answered.is_empty());
        self.asking_is_next = !asks;
        let place = if asks {
            self.asking.pop_front()?
        } else {
            self.answered.pop_front()?
        };
        if let Some(queued) = self.queued.get_mut(place) {
            *queued = false;
        }
        Some(place)
    }

    pub(crate) fn is_empty(&self) -> bool {
        self.asking.is_empty() && self.answered.is_empty()
    }
}
