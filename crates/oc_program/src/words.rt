//! The words given to the process.

ghost use Rattle.std.specs.Prelude.{◌≡◌, ◌⊎◌, IfErr};

use crate::End;
use std::rt::Env;
use std::{env, io};

/// The words after the program's name; or the end of the program if they cannot be read. A word
/// that is not text is refused.
pub fn given_words<R: Env + AllocGlobal>(rt: &R) -> Result<Vec<String>, End>
    ensures { IfErr result (λ end. (end ≡ End.NoMemory) ⊎ (end ≡ End.Misused)) }
{
    let given = match env::args(rt) {
        Ok(given) => given,
        Err(error) if error.kind() == io::ErrorKind::OutOfMemory => return Err(End::NoMemory),
        Err(_) => return Err(End::Misused),
    };
    let mut words = Vec::new(rt.alloc());
    for word in given.skip(1) {
        if words.push(word).is_err() {
            return Err(End::NoMemory);
        }
    }
    Ok(words)
}
