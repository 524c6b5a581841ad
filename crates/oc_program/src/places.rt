//! The paths of the input, the token and the three files of a run.

ghost use Rattle.std.specs.Prelude.{◌≡◌, ℕ, List, Option, IfErr, IfOk, codes, option_map, string_bytes, unwrap_or};
ghost use Rattle.oc_program.specs.Places.{AreAsked, AreNamed, path_in};
ghost use Rattle.oc_words.specs.Words.{asked, texts_of};

use crate::{End, WordsFault, read_words};
use oc_system::FilePlace;
use std::alloc::{AllocError, Global};

/// The first control file of a node.
const CONTROL: &str = "control.log";

/// The second control file of a node.
const ALTERNATE: &str = "control.alt";

/// The content file of a node.
const CONTENT: &str = "content.log";

/// The paths of the input, of the file of a token and of the three files of a node.
#[derive(Drop)]
pub struct Places {
    /// The id of the node to run, if one is run.
    pub(crate) node: Option<u64>,
    /// The file that is read instead of the standard input, if any.
    pub(crate) input: Option<String>,
    /// The file of a client's token, if there is one.
    pub(crate) token: Option<String>,
    /// The folder of the three files.
    folder: String,
    control: String,
    alternate: String,
    content: String,
}

impl Places {
    /// The places that the words name; none for words that make no request. If memory runs out, the
    /// error is the end of the program.
    pub fn of(alloc: Global, words: &[String]) -> Result<Places, End>
        ensures asked { IfOk result (AreAsked (asked (texts_of words.now))) }
        ensures memory { IfErr result (λ end. end ≡ End.NoMemory) }
    {
        match read_words(alloc, words) {
            Ok(request) => or_no_memory(Places::named(
                alloc,
                request.node(),
                request.file(),
                request.token_file(),
                request.folder(),
            )),
            Err(WordsFault::Usage) => or_no_memory(Places::named(alloc, None, None, None, None)),
            Err(WordsFault::Memory) => Err(End::NoMemory),
        }
    }

    /// The places for this node, these files of the input and of a token, and the folder of the
    /// node's files, or else the present one.
    fn named(
        alloc: Global,
        node: Option<u64>,
        input: Option<&str>,
        token: Option<&str>,
        folder: Option<&str>,
    ) -> Result<Places, AllocError>
        ensures { IfOk result (AreNamed node (option_map (λ name. name.now) input.entry) (option_map (λ name. name.now) token.entry) (option_map (λ name. name.now) folder.entry)) }
    {
        let folder = or_present(folder);
        Ok(Places {
            node,
            input: copied(alloc, input)?,
            token: copied(alloc, token)?,
            folder: String::from_str(alloc, folder)?,
            control: path_in(alloc, folder, CONTROL)?,
            alternate: path_in(alloc, folder, ALTERNATE)?,
            content: path_in(alloc, folder, CONTENT)?,
        })
    }

    /// The place of the first control file.
    pub(crate) fn control(&self) -> FilePlace<'_> {
        self.place(self.control.as_str(), CONTROL)
    }

    /// The place of the second control file.
    pub(crate) fn alternate(&self) -> FilePlace<'_> {
        self.place(self.alternate.as_str(), ALTERNATE)
    }

    /// The place of the content file.
    pub(crate) fn content(&self) -> FilePlace<'_> {
        self.place(self.content.as_str(), CONTENT)
    }

    fn place<'a>(&'a self, path: &'a str, name: &'a str) -> FilePlace<'a> {
        FilePlace {
            folder: self.folder.as_str(),
            path,
            name,
        }
    }
}

/// The folder, or the present one if there is none.
fn or_present(folder: Option<&str>) -> &str
    ensures { result.now ≡ unwrap_or (option_map (λ name. name.now) folder.entry) (codes ".") }
{
    match folder {
        Some(folder) => folder,
        None => ".",
    }
}

/// The places, or the end of a program without memory.
fn or_no_memory(places: Result<Places, AllocError>) -> Result<Places, End>
    ensures same { (node : Option ℕ) (input token folder : Option (List ℕ)) → IfOk places (AreNamed node input token folder)
        → IfOk result (AreNamed node input token folder) }
    ensures memory { IfErr result (λ end. end ≡ End.NoMemory) }
{
    match places {
        Ok(places) => Ok(places),
        Err(_) => Err(End::NoMemory),
    }
}

/// A copy of a text, if there is one.
fn copied(alloc: Global, text: Option<&str>) -> Result<Option<String>, AllocError>
    ensures { IfOk result (λ copy. option_map string_bytes copy ≡ option_map (λ text. text.now) text.entry) }
{
    match text {
        Some(text) => Ok(Some(String::from_str(alloc, text)?)),
        None => Ok(None),
    }
}

/// The path of a file in a folder.
fn path_in(alloc: Global, folder: &str, file: &str) -> Result<String, AllocError>
    ensures { IfOk result (λ path. string_bytes path ≡ path_in folder.now file.now) }
{
    let mut path = String::from_str(alloc, folder)?;
    path.push_str("/")?;
    path.push_str(file)?;
    Ok(path)
}
