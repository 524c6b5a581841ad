ghost use Rattle.std.specs.Prelude.{◌≡◌, ◌++◌, OnOk, OnErr};

use crate::{Cert, Child, Line, NodeId, Shelf};
use std::alloc::AllocError;
use std::marker::Model;

/// Bytes, as in a chunk. Contracts see them as the list of the items.
#[derive(Clone, Debug, Drop)]
pub struct Bytes {
    items: Vec<u8>,
}

impl Model for Bytes {
    ghost use Rattle.std.specs.Prelude.{List, ℕ};

    ghost Value = { List ℕ };

    ghost view = { λ list. list.items.items };
}

impl Bytes {
    pub fn of(items: Vec<u8>) -> Bytes
        ensures { result ≡ items.items }
    {
        Bytes { items }
    }

    pub fn items(&self) -> &[u8]
        ensures { result.now ≡ self.now }
    {
        self.items.as_slice()
    }

    /// Adds bytes at the end. If memory runs out, the bytes do not change.
    pub fn append(&mut self, more: &[u8]) -> Result<(), AllocError>
        ensures ok { OnOk result (self.new ≡ self.old ++ more.now) }
        ensures err { OnErr result (self.new ≡ self.old) }
    {
        self.items.extend_from_slice(more)
    }
}

/// The bytes of a text, as in a part of an HTTP head. Contracts see it as the list of its items.
#[derive(Clone, Debug, Drop)]
pub struct Text {
    items: Vec<u8>,
}

impl Model for Text {
    ghost use Rattle.std.specs.Prelude.{List, ℕ};

    ghost Value = { List ℕ };

    ghost view = { λ list. list.items.items };
}

impl Text {
    pub fn of(items: Vec<u8>) -> Text
        ensures { result ≡ items.items }
    {
        Text { items }
    }

    pub fn items(&self) -> &[u8]
        ensures { result.now ≡ self.now }
    {
        self.items.as_slice()
    }
}

/// A list of node ids. Contracts see it as the list of its items.
#[derive(Clone, Debug, Drop)]
pub struct IdList {
    items: Vec<NodeId>,
}

impl Model for IdList {
    ghost use Rattle.std.specs.Prelude.{List, ℕ};

    ghost Value = { List ℕ };

    ghost view = { λ list. list.items.items };
}

impl IdList {
    pub fn of(items: Vec<NodeId>) -> IdList
        ensures { result ≡ items.items }
    {
        IdList { items }
    }

    pub fn items(&self) -> &[NodeId]
        ensures { result.now ≡ self.now }
    {
        self.items.as_slice()
    }
}

/// A list of certificates. Contracts see it as the list of its items.
#[derive(Clone, Debug, Drop)]
pub struct CertList {
    items: Vec<Cert>,
}

impl Model for CertList {
    ghost use Rattle.std.specs.Prelude.{List};
    ghost use Rattle.oc_base.specs.declared.cert.Cert.{Cert};

    ghost Value = { List Cert };

    ghost view = { λ list. list.items.items };
}

impl CertList {
    pub fn of(items: Vec<Cert>) -> CertList
        ensures { result ≡ items.items }
    {
        CertList { items }
    }

    pub fn items(&self) -> &[Cert]
        ensures { result.now ≡ self.now }
    {
        self.items.as_slice()
    }
}

/// The lines of a listing. Contracts see them as the list of the items.
#[derive(Clone, Debug, Drop)]
pub struct LineList {
    items: Vec<Line>,
}

impl Model for LineList {
    ghost use Rattle.std.specs.Prelude.{List};
    ghost use Rattle.oc_base.specs.declared.cert.Line.{Line};

    ghost Value = { List Line };

    ghost view = { λ list. list.items.items };
}

impl LineList {
    pub fn of(items: Vec<Line>) -> LineList
        ensures { result ≡ items.items }
    {
        LineList { items }
    }

    pub fn items(&self) -> &[Line]
        ensures { result.now ≡ self.now }
    {
        self.items.as_slice()
    }
}

/// The lines of a shelf, one for each group. Contracts see them as the list of the items.
#[derive(Clone, Debug, Drop)]
pub struct ShelfList {
    items: Vec<Shelf>,
}

impl Model for ShelfList {
    ghost use Rattle.std.specs.Prelude.{List};
    ghost use Rattle.oc_base.specs.declared.shelf.Shelf.{Shelf};

    ghost Value = { List Shelf };

    ghost view = { λ list. list.items.items };
}

impl ShelfList {
    pub fn of(items: Vec<Shelf>) -> ShelfList
        ensures { result ≡ items.items }
    {
        ShelfList { items }
    }

    pub fn items(&self) -> &[Shelf]
        ensures { result.now ≡ self.now }
    {
        self.items.as_slice()
    }
}

/// A list of children with their rates. Contracts see it as the list of its items.
#[derive(Clone, Debug, Drop)]
pub struct ChildList {
    items: Vec<Child>,
}

impl Model for ChildList {
    ghost use Rattle.std.specs.Prelude.{List};
    ghost use Rattle.oc_base.specs.declared.cert.Child.{Child};

    ghost Value = { List Child };

    ghost view = { λ list. list.items.items };
}

impl ChildList {
    pub fn of(items: Vec<Child>) -> ChildList
        ensures { result ≡ items.items }
    {
        ChildList { items }
    }

    pub fn items(&self) -> &[Child]
        ensures { result.now ≡ self.now }
    {
        self.items.as_slice()
    }
}
