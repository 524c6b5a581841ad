use crate::decoder::Decoder;
use crate::fault::ChunkFault;
use oc_base::Memory;
use std::alloc::Global;
use std::marker::Model;

/// A reader of a chunked text (RFC 9112, section 7.1) that comes in pieces, cut anywhere. Chunk
/// extensions and trailer fields are ignored.
///
/// Contracts see the stage of the reader. `IsTaken` says which bytes lead to which stage, and with
/// which content.
#[derive(Drop)]
pub struct Unchunker {
    progress: Decoder,
}

impl Model for Unchunker {
    ghost use Rattle.oc_chunked.specs.Stages.{DecoderState};
    ghost use Rattle.oc_chunked.specs.Views.{stage_of};

    ghost Value = { DecoderState };

    ghost view = { λ u. stage_of u.progress };
}

impl Unchunker {
    ghost use Rattle.std.specs.Prelude.{◌≡◌, ◌≢◌, ◌<◌, ◌≤◌, ℕ, List, [], ◌++◌, length, take, Err, None, IfOk, IfErr, OnOk, OnErr, MatchBool};
    ghost use Rattle.oc_chunked.specs.Chunked.{IsChunked};
    ghost use Rattle.oc_chunked.specs.Stages.{ended, refused, fault_in, wanted_at};
    ghost use Rattle.oc_chunked.specs.Taken.{IsTaken, Takes, RefusesPiece};
    ghost use Rattle.oc_chunked.specs.declared.fault.ChunkFault.{ChunkFault};

    /// A reader at the beginning of a text.
    pub fn new(alloc: Global) -> Result<Unchunker, Memory>
        ensures { IfOk result (λ u. IsTaken [] [] u) }
    {
        Ok(Unchunker {
            progress: Decoder::new(alloc)?,
        })
    }

    /// Takes a piece of the text, appends its content to `out`, and gives the number of bytes
    /// taken: the whole piece, or fewer if the text ended in it. Memory is taken first. `out` is
    /// unchanged if the piece is refused; after `Bad` and `Long` every further piece is refused in
    /// the same way.
    pub fn feed(&mut self, piece: &[u8], out: &mut Vec<u8>) -> Result<usize, ChunkFault>
        ensures within { IfOk result (λ count. count ≤ length piece.now) }
        ensures whole { IfOk result (λ count. count < length piece.now → self.new ≡ ended) }
        ensures takes { IfOk result (λ count. (content : List ℕ) × (out.new.items ≡ out.old.items ++ content)
            × Takes self.old (take count piece.now) content self.new) }
        ensures fine { OnOk result (fault_in self.new ≡ None) }

        // A piece of at most the wanted number of bytes is taken whole.
        ensures wanted { IfOk result (λ count. length piece.now ≤ wanted_at self.old → count ≡ length piece.now) }

        ensures refused { IfErr result (λ fault. fault ≢ ChunkFault.Memory → (self.new ≡ refused fault) × RefusesPiece self.old piece.now fault) }
        ensures again { (fault : ChunkFault) → self.old ≡ refused fault → result ≡ Err fault }
        ensures unused { OnErr result (out.new.items ≡ out.old.items) }
        ensures memory { result ≡ Err ChunkFault.Memory → self.new ≡ self.old }
    {
        if let Some(fault) = self.progress.fault() {
            return Err(fault);
        }
        out.reserve(piece.len())?;
        let start = out.len();
        let taken = self.progress.take(piece, out);
        if let Some(fault) = self.progress.fault() {
            out.truncate(start);
            return Err(fault);
        }
        Ok(taken)
    }

    /// The number of further bytes that must belong to the text: within a chunk the rest of its
    /// content, otherwise one, and none at the end. After a refused piece it is one, too.
    pub fn wanted(&self) -> usize
        ensures said { result ≡ wanted_at self.now }
        ensures surely { (bytes given more content : List ℕ) → IsTaken bytes given self.now → IsTaken (bytes ++ more) content ended
            → result ≤ length more }
    {
        self.progress.wanted()
    }

    /// Whether the bytes taken so far are a whole chunked text.
    pub fn ended(&self) -> bool
        ensures { (bytes content : List ℕ) → IsTaken bytes content self.now
            → MatchBool result (IsChunked bytes content) ((other : List ℕ) → ¬ (IsChunked bytes other)) }
    {
        self.progress.is_ended()
    }
}
