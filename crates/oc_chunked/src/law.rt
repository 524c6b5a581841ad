ghost use Rattle.std.specs.Prelude.{◌≡◌, ℕ, List, [], ◌++◌, true, None};
ghost use Rattle.oc_chunked.specs.Chunked.{IsChunked};
ghost use Rattle.oc_chunked.specs.Stages.{DecoderState, ended, is_final, fault_in};
ghost use Rattle.oc_chunked.specs.Taken.{IsTaken};
ghost use Rattle.oc_chunked.specs.Texts.{chunked_text};

/// The content does not depend on how a text is cut into pieces: the same bytes lead to one stage
/// and have one content. After refused bytes, and after a whole text, no byte is taken. So feeding
/// in pieces gives the same as feeding the whole, a refusal too.
pub fn a_text_is_read_in_one_way()
    ensures one { (bytes content other : List ℕ) (s t : DecoderState) → IsTaken bytes content s → IsTaken bytes other t
        → (s ≡ t) × (content ≡ other) }
    ensures last { (bytes more content other : List ℕ) (s t : DecoderState) → IsTaken bytes content s → is_final s ≡ true
        → IsTaken (bytes ++ more) other t → more ≡ [] }
{}

/// A chunked text whose bytes were all taken is at its end, and the bytes given are its content.
pub fn a_chunked_text_ends()
    ensures { (bytes content given : List ℕ) (s : DecoderState) → IsChunked bytes content → IsTaken bytes given s
        → (s ≡ ended) × (given ≡ content) }
{}

/// A text written by [`crate::chunk_text`] is read however it is cut: no prefix of the text is refused,
/// and the whole leads to the end, with the content.
pub fn a_written_text_is_read()
    ensures whole { (bytes : List ℕ) → IsTaken (chunked_text bytes) bytes ended }
    ensures fine { (bytes front rest content : List ℕ) (s : DecoderState) → chunked_text bytes ≡ front ++ rest → IsTaken front content s
        → fault_in s ≡ None }
{}
