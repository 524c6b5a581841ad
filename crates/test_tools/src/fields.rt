use crate::fault::Fault;
use oc_base::{NodeId, Rank};
use std::alloc::Global;

/// A number greater than that of the fields of any row.
const MOST_FIELDS: u32 = 10_000;

/// The fields of a text, separated by one character.
#[derive(Clone, Copy)]
pub struct RowFields<'a> {
    left: &'a str,
    between: char,
}

impl<'a> RowFields<'a> {
    /// The fields of a text, separated by this character.
    pub fn of(text: &'a str, between: char) -> RowFields<'a> {
        RowFields {
            left: text,
            between,
        }
    }

    /// Whether no field is left.
    pub fn is_empty(&self) -> bool {
        self.left.is_empty()
    }

    /// The next field, or the empty text if none is left. Spaces around it are dropped.
    pub fn text(&mut self) -> &'a str {
        let (field, left) = self
            .left
            .split_once(self.between)
            .unwrap_or((self.left, ""));
        self.left = left.trim();
        field.trim()
    }

    /// The next field, a number.
    pub fn number(&mut self) -> Result<u64, Fault> {
        number_in(self.text())
    }

    /// The next field, a number that fits in 32 bits.
    pub fn small(&mut self) -> Result<u32, Fault> {
        match u32::try_from(self.number()?) {
            Ok(number) => Ok(number),
            Err(_) => Err(Fault::Field),
        }
    }

    /// The next field, a number that fits in 8 bits.
    pub fn byte(&mut self) -> Result<u8, Fault> {
        match u8::try_from(self.number()?) {
            Ok(number) => Ok(number),
            Err(_) => Err(Fault::Field),
        }
    }

    /// The next field, the id of a node.
    pub fn node(&mut self) -> Result<NodeId, Fault> {
        Ok(NodeId(self.small()?))
    }

    /// The next field, the id of a node, or `-` for none.
    pub fn some_node(&mut self) -> Result<Option<NodeId>, Fault> {
        match self.text() {
            "-" => Ok(None),
            text => Ok(Some(RowFields::of(text, ' ').node()?)),
        }
    }

    /// The next field, a rank such as `7.2`, its epoch and its depth.
    pub fn rank(&mut self) -> Result<Rank, Fault> {
        let mut parts = RowFields::of(self.text(), '.');
        Ok(Rank {
            epoch: parts.number()?,
            depth: parts.small()?,
        })
    }

    /// The next field, a rank, or `-` for none.
    pub fn some_rank(&mut self) -> Result<Option<Rank>, Fault> {
        match self.text() {
            "-" => Ok(None),
            text => Ok(Some(RowFields::of(text, ' ').rank()?)),
        }
    }

    /// The next field, ids with commas between them, or `-` for none.
    pub fn nodes(&mut self, alloc: Global) -> Result<Vec<NodeId>, Fault> {
        let mut ids = Vec::new(alloc);
        let mut list = self.list();
        for _ in 0..MOST_FIELDS {
            if list.is_empty() {
                break;
            }
            ids.push(list.node()?)?;
        }
        Ok(ids)
    }

    /// The next field, numbers with commas between them, or `-` for none.
    pub fn numbers(&mut self, alloc: Global) -> Result<Vec<u64>, Fault> {
        let mut numbers = Vec::new(alloc);
        let mut list = self.list();
        for _ in 0..MOST_FIELDS {
            if list.is_empty() {
                break;
            }
            numbers.push(list.number()?)?;
        }
        Ok(numbers)
    }

    /// The parts of the next field, separated by commas; none if it is `-`.
    pub fn list(&mut self) -> RowFields<'a> {
        match self.text() {
            "-" => RowFields::of("", ','),
            text => RowFields::of(text, ','),
        }
    }

    /// The next field, bytes in hexadecimal, or `-` for none.
    pub fn bytes(&mut self, alloc: Global) -> Result<Vec<u8>, Fault> {
        let text = self.text();
        if text == "-" {
            return Ok(Vec::new(alloc));
        }
        match hex::decode(alloc, text) {
            Ok(bytes) => Ok(bytes),
            Err(_) => Err(Fault::Field),
        }
    }

    /// The bytes of each remaining field.
    pub fn all_bytes(&mut self, alloc: Global) -> Result<Vec<Vec<u8>>, Fault> {
        let mut all = Vec::new(alloc);
        for _ in 0..MOST_FIELDS {
            if self.is_empty() {
                break;
            }
            all.push(self.bytes(alloc)?)?;
        }
        Ok(all)
    }
}

fn number_in(text: &str) -> Result<u64, Fault> {
    match text.parse() {
        Ok(number) => Ok(number),
        Err(_) => Err(Fault::Field),
    }
}
