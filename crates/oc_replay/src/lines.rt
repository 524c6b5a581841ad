//! The lines of a report, each appended to a buffer.

ghost use Rattle.std.specs.Prelude.{◌≡◌, ◌++◌, OnOk, IfOk};
ghost use Rattle.oc_replay.specs.Lines.{answer_text, word_text, event_line, message_line, held_line, held_text, end_line};

use crate::bodies::put_body;
use crate::texts::{put_byte, put_byte_number, put_mark};
use oc_base::{Memory, Shelf, put, put_with_number};
use oc_model::{Answer, Message, Word};
use std::alloc::Global;

/// Appends `#i WORD`: the number of an event, and its word.
pub fn put_event(out: &mut Vec<u8>, number: u64, word: &Word) -> Result<(), Memory>
    ensures { OnOk result (out.new.items ≡ out.old.items ++ event_line number word.now) }
{
    put_byte_number(out, b'#', number)?;
    put_byte(out, b' ')?;
    put_word(out, word)?;
    put_byte(out, b'\n')
}

/// Appends the word of an event.
fn put_word(out: &mut Vec<u8>, word: &Word) -> Result<(), Memory>
    ensures { OnOk result (out.new.items ≡ out.old.items ++ word_text word.now) }
{
    match word {
        Word::Node(answer) => put_answer(out, *answer),
        Word::Down => put(out, b"down"),
        Word::NoMessage => put(out, b"nomessage"),
        Word::Up => put(out, b"up"),
        Word::StoppedOld => put(out, b"stopped old"),
        Word::StoppedNew => put(out, b"stopped new"),
        Word::Settled(count) => put_with_number(out, b"settled ", *count),
        Word::Unready => put(out, b"unready"),
        Word::Healed(count) => put_with_number(out, b"healed ", *count),
    }
}

/// Appends the word of an answer.
pub fn put_answer(out: &mut Vec<u8>, answer: Answer) -> Result<(), Memory>
    ensures { OnOk result (out.new.items ≡ out.old.items ++ answer_text answer) }
{
    match answer {
        Answer::Ok => put(out, b"ok"),
        Answer::Ignored => put(out, b"ignored"),
        Answer::Gap => put(out, b"gap"),
        Answer::NotSource => put(out, b"notsource"),
        Answer::NoGroup => put(out, b"nogroup"),
        Answer::Groups => put(out, b"groups"),
        Answer::TooLong => put(out, b"toolong"),
        Answer::Own => put(out, b"own"),
        Answer::Fixed => put(out, b"fixed"),
        Answer::Waiting => put(out, b"waiting"),
        Answer::Spent => put(out, b"spent"),
        Answer::Sealed => put(out, b"sealed"),
        Answer::Redirect(node) => put_with_number(out, b"redirect ", u64::from(node.0)),
        Answer::Serve(count) => put_with_number(out, b"serve ", count),
    }
}

/// Appends `  mK A>B BODY`: the number of a message, its sender and receiver, and its body.
pub fn put_message(out: &mut Vec<u8>, number: u64, message: &Message) -> Result<(), Memory>
    ensures { OnOk result (out.new.items ≡ out.old.items ++ message_line number message.now) }
{
    put_with_number(out, b"  m", number)?;
    put_byte_number(out, b' ', u64::from(message.from.0))?;
    put_byte_number(out, b'>', u64::from(message.to.0))?;
    put_byte(out, b' ')?;
    put_body(out, &message.body)?;
    put_byte(out, b'\n')
}

/// Appends the block of `held`: a line for each group, in order.
pub fn put_held(out: &mut Vec<u8>, shelf: &[Shelf]) -> Result<(), Memory>
    ensures { OnOk result (out.new.items ≡ out.old.items ++ held_text shelf.now) }
{
    for line in shelf {
        put_held_line(out, line)?;
    }
    Ok(())
}

/// Appends `  GROUP HELD`.
fn put_held_line(out: &mut Vec<u8>, line: &Shelf) -> Result<(), Memory>
    ensures { OnOk result (out.new.items ≡ out.old.items ++ held_line line.now) }
{
    put(out, b"  ")?;
    put(out, line.group.bytes())?;
    put_byte_number(out, b' ', line.held)?;
    put_mark(out, line.sealed, " sealed")?;
    put_byte(out, b'\n')
}

/// Appends `end E M`: the number of events, and the number of messages.
pub fn put_end(out: &mut Vec<u8>, events: u64, messages: u64) -> Result<(), Memory>
    ensures { OnOk result (out.new.items ≡ out.old.items ++ end_line events messages) }
{
    put_with_number(out, b"end ", events)?;
    put_byte_number(out, b' ', messages)?;
    put_byte(out, b'\n')
}

/// The block of `held`, as a text of its own.
pub fn held_text(alloc: Global, shelf: &[Shelf]) -> Result<Vec<u8>, Memory>
    ensures { IfOk result (λ text. text.items ≡ held_text shelf.now) }
{
    let mut text = Vec::new(alloc);
    put_held(&mut text, shelf)?;
    Ok(text)
}
