use crate::extent::BodyEnd;
use oc_base::Memory;
use oc_chunked::Unchunker;
use std::alloc::Global;

/// The progress of a reply's body.
#[derive(Drop)]
enum BodyStage {
    /// This number of bytes is still to come.
    Counted(u64),
    /// Chunks come.
    Chunked(Unchunker),
    /// The body goes up to the end of the connection.
    Open,
    /// More came than the body.
    Exceeded,
}

/// A reply's body that comes in pieces, as far as its end needs to be known.
#[derive(Drop)]
pub(crate) struct ReplyBody {
    stage: BodyStage,
    /// Room for the content of chunks, of which nobody asks here.
    content: Vec<u8>,
}

impl ReplyBody {
    /// A body of which nothing has come.
    pub(crate) fn new(alloc: Global, end: BodyEnd) -> Result<ReplyBody, Memory> {
        let stage = match end {
            BodyEnd::Length(length) => BodyStage::Counted(length),
            BodyEnd::Coding => BodyStage::Chunked(Unchunker::new(alloc)?),
            BodyEnd::Connection => BodyStage::Open,
        };
        Ok(ReplyBody {
            stage,
            content: Vec::new(alloc),
        })
    }

    /// Notes bytes that came. A coding that is not that of chunks is taken to go up to the end of
    /// the connection.
    pub(crate) fn pass(&mut self, bytes: &[u8]) {
        let count = bytes.len() as u64;
        match &mut self.stage {
            BodyStage::Counted(left) if count <= *left => *left = left.saturating_sub(count),
            BodyStage::Counted(_) => self.stage = BodyStage::Exceeded,
            BodyStage::Chunked(chunks) => {
                self.content.clear();
                match chunks.feed(bytes, &mut self.content) {
                    Ok(taken) if taken < bytes.len() => self.stage = BodyStage::Exceeded,
                    Ok(_) => {}
                    Err(_) => self.stage = BodyStage::Open,
                }
            }
            BodyStage::Open | BodyStage::Exceeded => {}
        }
    }

    /// Whether the whole body has come.
    pub(crate) fn is_whole(&self) -> bool {
        matches!(self.stage, BodyStage::Exceeded) || self.is_exact()
    }

    /// Whether the whole body has come, and nothing after it.
    pub(crate) fn is_exact(&self) -> bool {
        match &self.stage {
            BodyStage::Counted(left) => *left == 0,
            BodyStage::Chunked(chunks) => chunks.ended(),
            BodyStage::Open | BodyStage::Exceeded => false,
        }
    }
}
