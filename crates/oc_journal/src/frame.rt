ghost use Rattle.std.specs.Prelude.{◌≡◌, ◌↔◌, ◌+◌, ◌<◌, ◌≤◌, ◌++◌, length, IfOk, IsErrOf};
ghost use Rattle.oc_journal.specs.JournalFile.{encoded};
ghost use Rattle.oc_journal.specs.declared.frame.FrameFault.TheVariants.{Memory as FrameMemory};

use oc_base::MAX_FRAME_BYTES;
use std::alloc::{AllocError, Global};
use std::marker::Model;

/// The closed gate after a frame.
const CLOSED: u8 = 0;

/// A body that can be appended to a journal. A contract sees it as its bytes.
#[derive(Debug, Drop)]
pub struct Frame {
    bytes: Vec<u8>,
}

impl Model for Frame {
    ghost use Rattle.std.specs.Prelude.{List, ℕ};
    ghost use Rattle.oc_journal.specs.FrameBytes.{body_of, IsFrame};

    ghost Value = { List ℕ };

    ghost view = { λ f. body_of f.bytes.items };

    ghost invariant = { λ f. IsFrame f.bytes.items };
}

/// Why a body is no frame.
#[derive(Clone, Copy, Debug, PartialEq, Eq)]
pub enum FrameFault {
    /// The body is longer than `MAX_FRAME_BYTES`.
    TooLong,
    /// Memory ran out.
    Memory,
}

impl From<AllocError> for FrameFault {
    ghost from_gives = { λ _ fault. fault ≡ FrameMemory };

    fn from(_error: AllocError) -> FrameFault {
        FrameFault::Memory
    }
}

impl Frame {
    /// A frame of this body.
    pub fn new(alloc: Global, body: &[u8]) -> Result<Frame, FrameFault>
        ensures body { IfOk result (λ frame. frame ≡ body.now) }
        ensures short { IfOk result (λ _. length body.now ≤ MAX_FRAME_BYTES) }
        ensures too_long { IsErrOf result FrameFault.TooLong ↔ (MAX_FRAME_BYTES < length body.now) }
    {
        Frame::joined(alloc, &[], body)
    }

    /// A frame whose body is these bytes, one after the other. Each byte is copied once.
    pub fn joined(alloc: Global, front: &[u8], rest: &[u8]) -> Result<Frame, FrameFault>
        ensures body { IfOk result (λ frame. frame ≡ front.now ++ rest.now) }
        ensures short { IfOk result (λ _. length front.now + length rest.now ≤ MAX_FRAME_BYTES) }
        ensures too_long { IsErrOf result FrameFault.TooLong ↔ (MAX_FRAME_BYTES < length front.now + length rest.now) }
    {
        if rest.len() > MAX_FRAME_BYTES || front.len() > MAX_FRAME_BYTES - rest.len() {
            return Err(FrameFault::TooLong);
        }
        Ok(Frame {
            bytes: encode(alloc, front, rest)?,
        })
    }

    /// The length of the body, in bytes.
    pub fn body_len(&self) -> u32
        ensures len { result ≡ length self.now }
        ensures short { length self.now ≤ MAX_FRAME_BYTES }
    {
        (self.bytes.len() - 5) as u32
    }

    /// The bytes that are written after the closed gate: the length, the body and a closed gate.
    pub fn bytes(&self) -> &[u8]
        ensures bytes { result.now ≡ encoded self.now }
        ensures short { length self.now ≤ MAX_FRAME_BYTES }
    {
        &self.bytes
    }
}

/// Encodes a body of two parts: its length, the body and a closed gate.
fn encode(alloc: Global, front: &[u8], rest: &[u8]) -> Result<Vec<u8>, AllocError>
    requires { length front.now + length rest.now ≤ MAX_FRAME_BYTES }
    ensures { IfOk result (λ bytes. bytes.items ≡ encoded (front.now ++ rest.now)) }
{
    let count = front.len() + rest.len();
    let mut bytes = Vec::with_capacity(alloc, count + 5)?;
    bytes.extend_from_slice(&(count as u32).to_be_bytes())?;
    bytes.extend_from_slice(front)?;
    bytes.extend_from_slice(rest)?;
    bytes.push(CLOSED)?;
    Ok(bytes)
}
