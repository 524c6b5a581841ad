ghost use Rattle.std.specs.Prelude.{◌≡◌, ℕ, ◌+◌, ◌-◌, ◌^◌, ◌<◌, ◌≤◌, slice_index, slice_set, ◌∷◌, [], ◌++◌, take, drop, length, IfOk, IfSome, OnOk, vec_len, vec_capacity};
ghost use Rattle.std.specs.VecDeque.{deque_len, deque_capacity};
ghost use Rattle.oc_updown.specs.TableView.{AreTableRows, entries_of};
ghost use Rattle.oc_base.specs.Lawful.{IsNode};

use oc_base::{Cert, Memory, Slots, push_reserved};
use std::alloc::Global;
use std::collections::VecDeque;
use std::marker::Model;

/// The waiting certificates, in their order, each about a node of the network. A contract sees them as a
/// list, with the number of nodes and the number of certificates for which there is room.
#[derive(Drop)]
pub(crate) struct Waiting {
    nodes: u32,
    certs: VecDeque<Cert>,
}

impl Model for Waiting {
    ghost use Rattle.std.specs.VecDeque.{deque_capacity};
    ghost use Rattle.oc_updown.specs.Waiting.{WaitingView};

    ghost Value = { WaitingView };

    ghost view = { λ w. record { nodes = w.nodes; certs = w.certs.items; room = deque_capacity w.certs } };
}

impl Waiting {
    pub(crate) fn new(alloc: Global, nodes: u32) -> Result<Waiting, Memory>
        ensures nodes { IfOk result (λ waiting. waiting.nodes ≡ nodes) }
        ensures certs { IfOk result (λ waiting. waiting.certs ≡ []) }
    {
        Ok(Waiting {
            nodes,
            certs: VecDeque::new(alloc),
        })
    }

    /// Makes room for this number of further certificates.
    pub(crate) fn reserve(&mut self, more: usize) -> Result<(), Memory>
        ensures room { OnOk result (length self.new.certs + more ≤ self.new.room) }
        ensures stays { self.old.room ≤ self.new.room }
        ensures certs { self.new.certs ≡ self.old.certs }
        ensures nodes { self.new.nodes ≡ self.old.nodes }
    {
        self.certs.reserve(more)?;
        Ok(())
    }

    pub(crate) fn len(&self) -> usize
        ensures { result ≡ length self.now.certs }
    {
        self.certs.len()
    }

    /// Copies the first `count` certificates to the end of a vector that has room for them.
    pub(crate) fn copy_first(&self, count: usize, into: &mut Vec<Cert>)
        requires most { count ≤ length self.now.certs }
        requires room { vec_len into.old + count ≤ vec_capacity into.old }
        ensures { into.new.items ≡ into.old.items ++ take count self.now.certs }
    {
        for index in 0..count {
            push_reserved(into, self.certs[index]);
        }
    }

    /// Adds a certificate at the end. There must be room for it.
    pub(crate) fn push(&mut self, cert: &Cert)
        requires subject { IsNode self.old.nodes cert.now.subject }
        requires room { length self.old.certs < self.old.room }
        ensures certs { self.new.certs ≡ self.old.certs ++ cert.now ∷ [] }
        ensures room { self.new.room ≡ self.old.room }
        ensures nodes { self.new.nodes ≡ self.old.nodes }
    {
        put(&mut self.certs, cert);
    }

    /// Removes the first certificate, if there is one.
    pub(crate) fn pop(&mut self)
        ensures certs { self.new.certs ≡ drop 1 self.old.certs }
        ensures room { self.new.room ≡ self.old.room }
        ensures nodes { self.new.nodes ≡ self.old.nodes }
    {
        self.certs.pop_front();
    }

    /// Removes the first `count` certificates, or all if there are fewer.
    pub(crate) fn give_up(&mut self, count: usize)
        ensures certs { self.new.certs ≡ drop count self.old.certs }
        ensures room { self.new.room ≡ self.old.room }
        ensures nodes { self.new.nodes ≡ self.old.nodes }
    {
        for _ in 0..count {
            self.pop();
        }
    }

    /// Adds the certificates of these rows at the end. There must be room for them.
    pub(crate) fn push_rows(&mut self, rows: &Slots<Option<Cert>>)
        requires rows { AreTableRows rows.now }
        requires nodes { length rows.now.items ≤ self.old.nodes }
        requires room { length self.old.certs + length (entries_of rows.now.items) ≤ self.old.room }
        ensures certs { self.new.certs ≡ self.old.certs ++ entries_of rows.now.items }
        ensures room { self.new.room ≡ self.old.room }
        ensures nodes { self.new.nodes ≡ self.old.nodes }
    {
        for place in 0..rows.used() {
            let row = rows.get_or(place, None);
            self.push_row(&row);
        }
    }

    /// Adds the certificate of a row at the end, if it has one.
    fn push_row(&mut self, row: &Option<Cert>)
        requires subject { IfSome row.now (λ cert. IsNode self.old.nodes cert.subject) }
        requires room { length self.old.certs + length (entries_of (row.now ∷ [])) ≤ self.old.room }
        ensures certs { self.new.certs ≡ self.old.certs ++ entries_of (row.now ∷ []) }
        ensures room { self.new.room ≡ self.old.room }
        ensures nodes { self.new.nodes ≡ self.old.nodes }
    {
        if let Some(cert) = row {
            self.push(cert);
        }
    }

    /// Removes all certificates.
    pub(crate) fn clear(&mut self)
        ensures certs { self.new.certs ≡ [] }
        ensures room { self.new.room ≡ self.old.room }
        ensures nodes { self.new.nodes ≡ self.old.nodes }
    {
        self.certs.clear();
    }
}

/// Adds a certificate at the end. There must be room for it.
fn put(certs: &mut VecDeque<Cert>, cert: &Cert)
    requires { deque_len certs.old < deque_capacity certs.old }
    ensures items { certs.new.items ≡ certs.old.items ++ cert.now ∷ [] }
    ensures capacity { deque_capacity certs.new ≡ deque_capacity certs.old }
{
    let _no_memory_taken = certs.push_back(*cert);
}
