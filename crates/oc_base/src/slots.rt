ghost use Rattle.std.specs.Prelude.{◌≡◌, ◌+◌, ◌-◌, ◌≤◌, ◌<◌, ◌++◌, drop, get_or, length, max, replicate, set, take, vec_capacity, IfOk, OnOk};

use crate::Memory;
use std::alloc::Global;
use std::marker::Model;

/// A fixed number of slots with a value each, the same in all at first. They take no memory until [`Slots::reserve`]
/// takes the memory for all, and slots after the last one that was put are never written: so a thousand unused slots
/// cost no more than ten. Slots are counted from 0.
///
/// A contract sees the list of the values, the number of slots in use, the value of all others, and the number
/// of slots for which there is memory.
#[derive(Drop)]
pub struct Slots<T> {
    count: usize,
    blank: T,
    written: Vec<T>,
}

impl<T> Model for Slots<T> {
    ghost use Rattle.std.specs.Prelude.{◌≤◌, length, vec_capacity};
    ghost use Rattle.oc_base.specs.SlotsView.{SlotsView, filled_up};

    ghost Value = { SlotsView T };

    ghost view = { λ r. record {
      items = filled_up r.count r.blank r.written.items;
      used = length r.written.items;
      blank = r.blank;
      room = vec_capacity r.written;
    } };

    ghost invariant = { λ r. length r.written.items ≤ r.count };
}

impl<T: Copy> Slots<T> {
    /// Makes `count` slots, each with the value `blank`.
    pub fn new(alloc: Global, count: usize, blank: T) -> Result<Slots<T>, Memory>
        ensures items { IfOk result (λ made. made.items ≡ replicate count blank) }
        ensures used { IfOk result (λ made. made.used ≡ 0) }
        ensures blank { IfOk result (λ made. made.blank ≡ blank) }
    {
        Ok(Slots {
            count,
            blank,
            written: Vec::new(alloc),
        })
    }

    /// Takes the memory for all slots.
    pub fn reserve(&mut self) -> Result<(), Memory>
        ensures room { OnOk result (length self.new.items ≤ self.new.room) }
        ensures stays { self.old.room ≤ self.new.room }
        ensures rest { self.new ≡ record self.old { room = self.new.room } }
    {
        let left = self.count - self.written.len();
        self.written.reserve(left)?;
        Ok(())
    }

    /// The number of slots.
    pub fn len(&self) -> usize
        ensures { result ≡ length self.now.items }
    {
        self.count
    }

    /// The number of slots in use, from the first on; all others have the blank value.
    pub fn used(&self) -> usize
        ensures used { result ≡ self.now.used }
        ensures within { result ≤ length self.now.items }
        ensures rest { drop result self.now.items ≡ replicate (length self.now.items - result) self.now.blank }
    {
        self.written.len()
    }

    /// The values of the slots in use; all others have the blank value.
    pub fn filled(&self) -> &[T]
        ensures used { length result.now ≡ self.now.used }
        ensures front { result.now ≡ take (length result.now) self.now.items }
        ensures rest { drop (length result.now) self.now.items ≡ replicate (length self.now.items - length result.now) self.now.blank }
    {
        &self.written
    }

    /// The value at a slot, or `other` past the last slot.
    pub fn get_or(&self, slot: usize, other: T) -> T
        ensures { result ≡ get_or self.now.items slot other }
    {
        if slot < self.written.len() {
            self.written[slot]
        } else if slot < self.count {
            self.blank
        } else {
            other
        }
    }

    /// The value at a slot, borrowed, or `other` past the last slot.
    pub fn lend_or<'a>(&'a self, slot: usize, other: &'a T) -> &'a T
        ensures { result.now ≡ get_or self.now.items slot other.now }
    {
        if slot < self.written.len() {
            &self.written[slot]
        } else if slot < self.count {
            &self.blank
        } else {
            other
        }
    }

    /// Puts a value at a slot, for which there is memory already.
    pub fn put(&mut self, slot: usize, value: T)
        requires slot { slot < length self.old.items }
        requires room { length self.old.items ≤ self.old.room }
        ensures items { self.new.items ≡ set self.old.items slot value }
        ensures used { self.new.used ≡ max self.old.used (slot + 1) }
        ensures blank { self.new.blank ≡ self.old.blank }
        ensures room { self.new.room ≡ self.old.room }
    {
        write_up_to(&mut self.written, slot + 1, self.blank);
        self.written[slot] = value;
    }

    /// Puts the same value at every slot, without taking memory.
    pub fn fill(&mut self, value: T)
        ensures items { self.new.items ≡ replicate (length self.old.items) value }
        ensures used { self.new.used ≡ 0 }
        ensures blank { self.new.blank ≡ value }
        ensures room { self.new.room ≡ self.old.room }
    {
        self.blank = value;
        self.written.clear();
    }
}

/// Adds the blank value until the vector has this length, for which it has room.
fn write_up_to<T: Copy>(written: &mut Vec<T>, end: usize, blank: T)
    requires { end ≤ vec_capacity written.old }
    ensures items { written.new.items ≡ written.old.items ++ replicate (end - length written.old.items) blank }
    ensures room { vec_capacity written.new ≡ vec_capacity written.old }
{
    let more = end.saturating_sub(written.len());
    for _ in 0..more {
        written.push_reserved(blank);
    }
}
