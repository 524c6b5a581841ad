//! The fields of a head.

ghost use Rattle.std.specs.List.{AllByRecursion};
ghost use Rattle.std.specs.Prelude.{◌≡◌, [], ◌∷◌, ◌<◌, map, length, IfOk, IfSome, IfNone, nat_lt, option_map};
ghost use Rattle.httparse.specs.Spans.{header_bytes, IsHeaderWithin};
ghost use Rattle.oc_base.specs.declared.limits.TheConstants.{MAX_FIELDS};
ghost use Rattle.oc_http.specs.Fields.{values, closes, only_of, is_only, is_present, hosts, has_host_fault, selectors_of};
ghost use Rattle.oc_http.specs.Found.{IsFound};

use crate::field_match::FieldMatch;
use crate::text::lists_close;
use crate::texts::copy;
use httparse::spans::HeaderSpan;
use oc_base::{MAX_FIELDS, Memory};
use oc_select::text::is_alike;
use oc_select::{Selectors, Values};
use std::alloc::Global;
use std::marker::Model;

/// The fields of a head, which lie in its bytes. Contracts see it as the list of their names and values.
#[derive(Drop)]
pub struct Fields<'a> {
    bytes: &'a [u8],
    spans: &'a [HeaderSpan],
}

impl<'a> Model for Fields<'a> {
    ghost use Rattle.std.specs.Prelude.{List, ℕ, map, length};
    ghost use Rattle.std.specs.List.{AllByRecursion};
    ghost use Rattle.httparse.specs.Spans.{header_bytes, IsHeaderWithin};

    ghost Value = { List (List ℕ × List ℕ) };

    ghost view = { λ f. map (header_bytes f.bytes.now) f.spans.now };

    ghost invariant = { λ f. AllByRecursion (IsHeaderWithin (length f.bytes.now)) f.spans.now };
}

impl<'a> Fields<'a> {
    /// The fields that these spans of the bytes cover, a name and a value each.
    pub fn of(bytes: &'a [u8], spans: &'a [HeaderSpan]) -> Fields<'a>
        requires { AllByRecursion (IsHeaderWithin (length bytes.now)) spans.now }
        ensures { result ≡ map (header_bytes bytes.now) spans.now }
    {
        Fields { bytes, spans }
    }

    /// Whether there are more than `MAX_FIELDS`.
    pub fn are_too_many(&self) -> bool
        ensures { result ≡ nat_lt MAX_FIELDS (length self.now) }
    {
        self.spans.len() > MAX_FIELDS
    }

    /// The value of the first field of a name, in upper or lower case, and the fields after it; `None` where no field
    /// has the name.
    pub(crate) fn next(&self, name: &str) -> Option<(&'a [u8], Fields<'a>)>
        ensures none { IfNone result (values name.now self.now ≡ []) }
        ensures first { IfSome result (λ found. values name.now self.now ≡ found.0.now ∷ values name.now found.1) }
        ensures shorter { IfSome result (λ found. length found.1 < length self.now) }
    {
        let bytes = self.bytes;
        let mut rest = self.spans;
        'fields: while let Some((span, spans)) = rest.split_first() {
            if is_alike(span.name.of(bytes), name.as_bytes()) {
                return Some((span.value.of(bytes), Fields { bytes, spans }));
            }
            rest = spans;
        }
        None
    }

    /// The fields of a name, in upper or lower case.
    pub fn find(&self, name: &str) -> FieldMatch<'a>
        ensures { IsFound result (values name.now self.now) }
    {
        match self.next(name) {
            None => FieldMatch::Absent,
            Some((first, rest)) => match rest.next(name) {
                None => FieldMatch::One(first),
                Some(_) => FieldMatch::Several(first),
            },
        }
    }

    /// The value of the field of a name, in upper or lower case; `None` where there is no such field, or more than one.
    pub fn only(&self, name: &str) -> Option<&'a [u8]>
        ensures { option_map (λ value. value.now) result ≡ only_of (values name.now self.now) }
    {
        match self.find(name) {
            FieldMatch::One(value) => Some(value),
            FieldMatch::Absent | FieldMatch::Several(_) => None,
        }
    }

    /// The values of the fields of a name, in upper or lower case.
    pub fn all(&self, alloc: Global, name: &str) -> Result<Values, Memory>
        ensures { IfOk result (λ all. all ≡ values name.now self.now) }
    {
        let mut items = Vec::new(alloc);
        let mut fields = Fields {
            bytes: self.bytes,
            spans: self.spans,
        };
        'fields: while let Some((value, rest)) = fields.next(name) {
            items.push(copy(alloc, value)?)?;
            fields = rest;
        }
        Ok(Values::of(items))
    }

    /// The fields that say on what conditions a content is asked for, and which part of it.
    pub fn selectors(&self, alloc: Global) -> Result<Selectors, Memory>
        ensures { IfOk result (λ selectors. selectors ≡ selectors_of self.now) }
    {
        Ok(Selectors {
            if_match: self.all(alloc, "if-match")?,
            if_none_match: self.all(alloc, "if-none-match")?,
            if_modified_since: self.all(alloc, "if-modified-since")?,
            if_unmodified_since: self.all(alloc, "if-unmodified-since")?,
            if_range: self.all(alloc, "if-range")?,
            range: self.all(alloc, "range")?,
        })
    }

    /// Whether some Connection field lists `close`.
    pub fn closes(&self) -> bool
        ensures { result ≡ closes self.now }
    {
        let mut fields = Fields {
            bytes: self.bytes,
            spans: self.spans,
        };
        'fields: while let Some((value, rest)) = fields.next("connection") {
            if lists_close(value) {
                return true;
            }
            fields = rest;
        }
        false
    }

    /// Whether there is one field of a name, and its value is this text, both in upper or lower case.
    pub fn has_only(&self, name: &str, text: &str) -> bool
        ensures { result ≡ is_only text.now (values name.now self.now) }
    {
        match self.find(name) {
            FieldMatch::One(value) => is_alike(value, text.as_bytes()),
            FieldMatch::Absent | FieldMatch::Several(_) => false,
        }
    }

    /// Whether there is a field of a name, in upper or lower case.
    pub fn is_present(&self, name: &str) -> bool
        ensures { result ≡ is_present (values name.now self.now) }
    {
        !matches!(self.find(name), FieldMatch::Absent)
    }

    /// Whether Host occurs more than once, or is missing in a request of version 1.1 (RFC 9112, section
    /// 3.2). `minor` is 1 for that version, and 0 for 1.0.
    pub fn has_host_fault(&self, minor: u8) -> bool
        ensures { result ≡ has_host_fault minor (hosts self.now) }
    {
        match self.find("host") {
            FieldMatch::Absent => minor == 1,
            FieldMatch::One(_) => false,
            FieldMatch::Several(_) => true,
        }
    }
}
