// Where the reading of a line stands.
ghost use Rattle.std.specs.Prelude.{◌≡◌, ◌<◌, IfOk, map};
ghost use Rattle.script.specs.Words.{words, text};

use std::alloc::{AllocError, Global};

// A place, and no iterator of the words: a mistake is told by its place, and `end` asks what is left and takes nothing.

/// The words of a line, and the place of the one to be read next. Places are counted from 1, and the one past the last word
/// is a place too.
#[derive(Drop)]
pub struct Cursor<'a> {
    pub heap: Global,
    pub words: Vec<&'a str>,
    pub place: usize,
    ghost counted: { 0 < place },
}

impl<'a> Cursor<'a> {
    /// The words of a line, at the first of them.
    pub fn new(heap: Global, line: &'a str) -> Result<Cursor<'a>, AllocError>
        ensures words { IfOk result (λ c. map text c.words.items ≡ words line.now) }
        ensures place { IfOk result (λ c. c.place ≡ 1) }
    {
        let words = line
            .split(' ')
            .filter(|piece| !piece.is_empty())
            .collect(heap)?;
        Ok(Cursor {
            heap,
            words,
            place: 1,
        })
    }
}
