ghost use Rattle.std.specs.Prelude.{◌≡◌, ◌++◌, ◌∷◌, [], OnErr, OnOk};
ghost use Rattle.oc_deeds.specs.Works.{index_on};

use crate::work::Work;
use oc_base::Memory;
use oc_link::ConnectionId;
use std::alloc::Global;
use std::marker::Model;

/// The works of a node, the oldest first.
#[derive(Drop)]
pub struct Works {
    list: Vec<Work>,
}

impl Model for Works {
    ghost use Rattle.std.specs.Prelude.{List};
    ghost use Rattle.oc_deeds.specs.declared.work.Work.{Work};

    ghost Value = { List Work };

    ghost view = { λ w. w.list.items };
}

impl Works {
    ghost use Rattle.oc_deeds.specs.Works.{work_on, without_work};

    /// An empty list of works.
    pub fn new(alloc: Global) -> Works
        ensures { result ≡ [] }
    {
        Works {
            list: Vec::new(alloc),
        }
    }

    /// Begins some work. Where memory runs out, all is as before.
    pub fn begin(&mut self, work: Work) -> Result<(), Memory>
        ensures begun { OnOk result (self.new ≡ self.old ++ work ∷ []) }
        ensures fails { OnErr result (self.new ≡ self.old) }
    {
        self.list.push(work)?;
        Ok(())
    }

    /// Takes out the work on a connection, if there is one.
    pub fn take(&mut self, connection: ConnectionId) -> Option<Work>
        ensures work { result ≡ work_on connection self.old }
        ensures rest { self.new ≡ without_work connection self.old }
    {
        match index_on(&self.list, connection) {
            Some(index) => Some(self.list.remove(index)),
            None => None,
        }
    }

    /// All works.
    pub fn list(&self) -> &[Work]
        ensures { result.now ≡ self.now }
    {
        &self.list
    }
}

/// The place of the work on a connection, if there is one.
pub fn index_on(works: &[Work], connection: ConnectionId) -> Option<usize>
    ensures { result ≡ index_on connection works.now }
{
    works
        .iter()
        .position(|work| work.connection() == connection)
}
