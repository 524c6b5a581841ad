ghost use Rattle.std.specs.Prelude.{◌≡◌, ◌≤◌, ◌==◌, length, not, position};
ghost use Rattle.std.proofs.Common.{rules};
ghost use Rattle.std.specs.Cmp.{partial_order_from_own_ties};
ghost use Rattle.std.specs.Cmp.Rules.{comparing};
ghost use Rattle.std.specs.Cmp.Lexicographic.{slice_cmp, pointwise};
ghost use Rattle.std.specs.Ordering.{nat_cmp, as_partial_cmp};
ghost use Rattle.oc_base.specs.Names.{parsed_name, name_fault, is_name_byte, is_segment, is_path};
ghost use Rattle.std.specs.List.{list_all, slice_split};
ghost use Rattle.oc_base.specs.declared.limits.TheConstants.{MAX_NAME_BYTES};

use crate::cutter::cut;
use crate::limits::{MAX_NAME_BYTES, MIN_NAME_BYTES};
use crate::padding::put_in_front;
use std::cmp::Ordering;
use std::fmt;
use std::marker::Model;

/// The name of a group: the path of its URL. Names are ordered by their bytes.
///
/// A name has 2 to 200 bytes, each a letter, a digit or one of `/`, `.`, `_`, `~`, `-`, `+`, `:`, `=`, `@`, `,`,
/// `(` and `)`. The first byte is `/`, and no segment between slashes or after the last is empty, `.` or `..`.
#[derive(Clone, Copy)]
pub struct GroupName {
    bytes: [u8; MAX_NAME_BYTES],
    len: u8,
}

impl Model for GroupName {
    ghost use Rattle.std.specs.Prelude.{◌≡◌, ℕ, ◌-◌, ◌≤◌, List, ◌++◌, length, take, replicate};
    ghost use Rattle.oc_base.specs.declared.limits.TheConstants.{MAX_NAME_BYTES};
    ghost use Rattle.oc_base.specs.Padding.{length_of_front, padded_again};

    ghost Value = { List ℕ };

    ghost view = { λ n. take n.len n.bytes };

    ghost invariant = { λ n. (n.len ≤ MAX_NAME_BYTES) × (length n.bytes ≡ MAX_NAME_BYTES)
        × (n.bytes ≡ take n.len n.bytes ++ replicate (MAX_NAME_BYTES - n.len) 0) };

    ghost inverse = { λ xs. record { bytes = xs ++ replicate (MAX_NAME_BYTES - length xs) 0; len = length xs } };

    ghost inverse_ok = { λ n h i. record {
      bytes = padded_again n.len n.bytes h.0 h.1 h.2 i;
      len = length_of_front n.len n.bytes h.0 h.1 i;
    } };
}

/// Why bytes are no group name.
#[derive(Clone, Copy, Debug, PartialEq, Eq)]
pub enum NameFault {
    /// Fewer than 2 bytes or more than 200.
    Length,
    /// The byte at this place, counted from 0, may not occur in a name.
    Byte(usize),
    /// The first byte is no `/`, or a segment is empty, `.` or `..`.
    Form,
}

impl GroupName {
    /// Reads a name, without taking memory. Of several faults it answers the first, in the order of [`NameFault`].
    pub fn parse(bytes: &[u8]) -> Result<GroupName, NameFault>
        ensures { result ≡ parsed_name bytes.now }
    {
        match fault_in(bytes) {
            Some(fault) => Err(fault),
            None => Ok(GroupName::padded(bytes)),
        }
    }

    /// The name's bytes.
    pub fn bytes(&self) -> &[u8]
        ensures { result.now ≡ self.now }
    {
        &self.bytes[..usize::from(self.len)]
    }

    fn padded(name: &[u8]) -> GroupName
        requires { length name.now ≤ MAX_NAME_BYTES }
        ensures { result ≡ name.now }
    {
        let mut bytes = [0; MAX_NAME_BYTES];
        put_in_front(&mut bytes, name);
        GroupName {
            bytes,
            len: name.len() as u8,
        }
    }
}

/// Finds the first fault, in the order of [`NameFault`].
fn fault_in(bytes: &[u8]) -> Option<NameFault>
    ensures { result ≡ name_fault bytes.now }
{
    if bytes.len() < MIN_NAME_BYTES || bytes.len() > MAX_NAME_BYTES {
        Some(NameFault::Length)
    } else if let Some(at) = first_strange(bytes) {
        Some(NameFault::Byte(at))
    } else if is_well_formed(bytes) {
        None
    } else {
        Some(NameFault::Form)
    }
}

/// Finds the index of the first byte that no name has.
fn first_strange(bytes: &[u8]) -> Option<usize>
    ensures { result ≡ position (λ b. not (is_name_byte b)) bytes.now }
{
    bytes.iter().position(|b| !may_stand(*b))
}

/// Whether a name may have this byte.
fn may_stand(byte: u8) -> bool
    ensures { result ≡ is_name_byte byte }
{
    matches!(byte, b'a'..=b'z' | b'A'..=b'Z' | b'0'..=b'9' | b'/' | b'.' | b'_' | b'~' | b'-' | b'+' | b':' | b'=' | b'@' | b',' | b'(' | b')')
}

fn is_allowed_segment(segment: &[u8]) -> bool
    ensures { result ≡ is_segment segment.now }
{
    !matches!(segment, [] | [b'.'] | [b'.', b'.'])
}

fn is_well_formed(bytes: &[u8]) -> bool
    ensures { result ≡ is_path bytes.now }
{
    match bytes {
        [b'/', rest @ ..] => are_segments(rest),
        _ => false,
    }
}

fn are_segments(bytes: &[u8]) -> bool
    ensures { result ≡ list_all is_segment (slice_split (λ b. b == 47) bytes.now) }
{
    match cut(bytes, b'/') {
        (only, None) => is_allowed_segment(only),
        (first, Some(rest)) => is_allowed_segment(first) && are_segments(rest),
    }
}

impl PartialEq for GroupName {
    ghost eq = { pointwise ◌==◌ };

    ghost laws = { Prim.search (comparing, rules) };

    fn eq(&self, other: &GroupName) -> bool {
        self.bytes() == other.bytes()
    }
}

impl Eq for GroupName {
    ghost laws = { Prim.search (comparing, rules) };
}

impl Ord for GroupName {
    ghost cmp = { slice_cmp nat_cmp };

    ghost total = { Prim.search (comparing, rules) };

    ghost matches_partial_cmp = { Prim.search (comparing, rules) };

    ghost matches_eq = { Prim.search (comparing, rules) };

    fn cmp(&self, other: &GroupName) -> Ordering {
        self.bytes().cmp(other.bytes())
    }
}

impl PartialOrd for GroupName {
    ghost partial_cmp = { as_partial_cmp (slice_cmp nat_cmp) };

    ghost laws = { partial_order_from_own_ties (Prim.search (comparing, rules)) (Prim.search (comparing, rules)) };

    fn partial_cmp(&self, other: &GroupName) -> Option<Ordering> {
        Some(self.cmp(other))
    }
}

impl fmt::Debug for GroupName {
    fn fmt<W: fmt::Write>(&self, f: &mut fmt::Formatter<W>) -> fmt::Result {
        for byte in self.bytes() {
            let letter = char::from(*byte);
            write!(f, "{letter}")?;
        }
        Ok(())
    }
}

impl fmt::Display for GroupName {
    fn fmt<W: fmt::Write>(&self, f: &mut fmt::Formatter<W>) -> fmt::Result {
        write!(f, "{self:?}")
    }
}
