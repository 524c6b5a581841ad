//! The heading of a frame's body: the part before the bytes.

ghost use Rattle.std.specs.Prelude.{◌≡◌, ◌+◌, ◌^◌, ◌<◌, ◌≤◌, length, take, IfOk, IfSome};
ghost use Rattle.std.specs.Int.{w64, from_be_bytes};
ghost use Rattle.oc_base.specs.Names.{IsGroupName};
ghost use Rattle.oc_content.specs.Entries.{entry_of, fields, heading};
ghost use Rattle.oc_content.specs.Headings.{IsBehind, IsHeadingOf};

use oc_base::GroupName;
use std::alloc::{AllocError, Global};

/// The byte that begins a sealed body. No name has this length.
const SEALED: u8 = 0;

/// The heading of a body, which says where its bytes belong.
#[derive(Clone, Copy)]
pub struct Heading {
    pub group: GroupName,
    /// The length of the group before this body, in bytes.
    pub start: u64,
    /// The offset in the body where its bytes begin.
    pub skip: u16,
    /// Whether the group is sealed after the bytes.
    pub seals: bool,
}

impl Heading {
    /// The heading of an entry of this group, which has `start` bytes before the entry, and is sealed after
    /// it if `seals` is set.
    pub fn of(group: GroupName, start: u64, seals: bool) -> Heading
        ensures group { result.group ≡ group }
        ensures start { result.start ≡ start }
        ensures seals { result.seals ≡ seals }
        ensures skip { result.skip ≡ length (heading seals group start) }
        ensures short { result.skip < 512 }
    {
        let fields = 9 + u16::from(name_len(group));
        Heading {
            group,
            start,
            skip: if seals { fields + 1 } else { fields },
            seals,
        }
    }

    /// Reads the heading of a body.
    pub fn read(body: &[u8]) -> Option<Heading>
        ensures entry { IsBehind result body.now (entry_of body.now) }
        ensures within { IfSome result (λ h. h.skip ≤ length body.now) }
        ensures short { IfSome result (λ h. h.skip < 512) }
    {
        let (first, rest) = body.split_first()?;
        if *first == SEALED {
            read_fields(rest, true, 1)
        } else {
            read_fields(body, false, 0)
        }
    }

    /// The bytes of the heading, which come before the bytes of the entry.
    pub fn front(&self, alloc: Global) -> Result<Vec<u8>, AllocError>
        ensures front { IfOk result (λ front. front.items ≡ heading self.now.seals self.now.group self.now.start) }
        ensures short { IfOk result (λ front. length front.items < 512) }
    {
        let mut front = Vec::new(alloc);
        if self.seals {
            front.push(SEALED)?;
        }
        front.push(name_len(self.group))?;
        front.extend_from_slice(self.group.bytes())?;
        front.extend_from_slice(&self.start.to_be_bytes())?;
        Ok(front)
    }
}

/// The length of a name in bytes.
fn name_len(name: GroupName) -> u8
    ensures { result ≡ length name }
{
    name.bytes().len() as u8
}

/// Reads the length of a name, the name and the start, which come after `before` bytes of the body.
fn read_fields(bytes: &[u8], seals: bool, before: u16) -> Option<Heading>
    requires { before ≤ 1 }
    ensures { IsHeadingOf before bytes.now result (fields seals bytes.now) }
{
    let (count, rest) = bytes.split_first()?;
    let count = usize::from(*count);
    if rest.len() < count + 8 {
        return None;
    }
    let (name, rest) = rest.split_at(count);
    let Ok(group) = GroupName::parse(name) else {
        return None;
    };
    Some(Heading {
        group,
        start: start_in(rest),
        skip: before + 9 + count as u16,
        seals,
    })
}

/// The big-endian number in the first eight bytes.
fn start_in(bytes: &[u8]) -> u64
    requires { 8 ≤ length bytes.now }
    ensures { result ≡ from_be_bytes w64 (take 8 bytes.now) }
{
    let mut start = [0; 8];
    start.copy_from_slice(&bytes[..8]);
    u64::from_be_bytes(start)
}
