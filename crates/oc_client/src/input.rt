//! The input of a publishing.

ghost use Rattle.std.specs.Prelude.{◌≡◌, ◌<◌, ◌≤◌, ℕ, List, length, take, vec_len, IfOk, IfErr, OnErr, IsErrOf};
ghost use Rattle.oc_io.specs.Faults.{NoFall, Rose};
ghost use Rattle.oc_client.specs.Inputs.{Passes, IsPiece, IsPieceCut};
ghost use Rattle.oc_client.specs.declared.input.TheConstants.{PUT_PIECE_BYTES};

use crate::filling::fill;
use crate::put_end::PutEnd;
use oc_base::Bytes;
use oc_io::{Failed, Source};
use std::alloc::Global;

/// The largest piece of the input that one request sends, in bytes.
pub const PUT_PIECE_BYTES: usize = 524_288;

/// The next piece of the input. In live mode, the bytes of one read, none only at the end;
/// otherwise `PUT_PIECE_BYTES`, fewer only at the end.
pub(crate) fn next_piece<S: Source>(
    alloc: Global,
    live: bool,
    input: &mut S,
) -> Result<Bytes, PutEnd>
    ensures piece { IfOk result (IsPiece S.gives S.ended S.calls live input.old input.new) }
    ensures cut { IfErr result (IsPieceCut S.gives S.fails input.old input.new) }
    ensures count { NoFall (S.faults input.old) (S.faults input.new) }
    ensures cause { IsErrOf result PutEnd.Input → Rose (S.faults input.old) (S.faults input.new) }
{
    let mut piece = vec![in alloc; 0; PUT_PIECE_BYTES]?;
    let Ok(count) = read_piece(live, input, &mut piece) else {
        return Err(PutEnd::Input);
    };
    piece.truncate(count);
    Ok(Bytes::of(piece))
}

/// Reads a piece of the input into a buffer for one, and gives its length in bytes.
fn read_piece<S: Source>(live: bool, input: &mut S, buffer: &mut [u8]) -> Result<usize, Failed>
    requires room { length buffer.old ≡ PUT_PIECE_BYTES }
    ensures within { IfOk result (λ count. count ≤ length buffer.old) }
    ensures piece { IfOk result (λ count. IsPiece S.gives S.ended S.calls live input.old input.new (take count buffer.new)) }
    ensures fails { OnErr result ((part : List ℕ) × S.fails input.old part input.new) }
    ensures count { NoFall (S.faults input.old) (S.faults input.new) }
    ensures cause { OnErr result (Rose (S.faults input.old) (S.faults input.new)) }
{
    if live {
        input.read(buffer)
    } else {
        fill(input, buffer)
    }
}

/// Skips the first `count` bytes of the input.
pub(crate) fn pass_over<S: Source>(
    count: u64,
    input: &mut S,
    buffer: &mut [u8],
) -> Result<(), PutEnd>
    requires { 0 < length buffer.old }
    ensures passes { Passes S.gives S.fails S.ended count input.old input.new result }
    ensures count { NoFall (S.faults input.old) (S.faults input.new) }
    ensures cause { IsErrOf result PutEnd.Input → Rose (S.faults input.old) (S.faults input.new) }
{
    let mut left = count;
    'pieces: while left > 0 {
        let most = left.min(buffer.len() as u64) as usize;
        let Ok(passed) = input.read(&mut buffer[..most]) else {
            return Err(PutEnd::Input);
        };
        if passed == 0 {
            return Err(PutEnd::Short);
        }
        left -= passed as u64;
    }
    Ok(())
}
