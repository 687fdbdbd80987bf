ghost use Rattle.std.specs.Prelude.{◌≡◌, ℕ, List, not, length, ◌==◌};
ghost use Rattle.text.specs.Lines.{line_of, after_line, Cut};

use crate::find::find;
use std::marker::Model;

// A line of the input, with its byte 10 where it has one.
#[derive(Drop)]
pub struct Line<'a> {
    pub bytes: &'a [u8],
}

// What is left to read. It is no `Copy` and no `Clone`, so no line is given twice.
#[derive(Drop)]
pub struct Reader<'a> {
    rest: &'a [u8],
}

// Seen as the bytes that are left.
impl<'a> Model for Reader<'a> {
    ghost Value = { List ℕ };

    ghost view = { λ r. r.rest.now };
}

impl<'a> Reader<'a> {
    pub fn new(input: &'a [u8]) -> Reader<'a>
        ensures { result ≡ input.now }
    {
        Reader { rest: input }
    }

    pub fn has_line(&self) -> bool
        ensures { result ≡ not (length self.now == 0) }
    {
        !self.rest.is_empty()
    }

    // The next line, with the reader for what follows.
    pub fn take_line(self) -> (Line<'a>, Reader<'a>)
        ensures line { result.0.bytes.now ≡ line_of self.entry }
        ensures rest { result.1 ≡ after_line self.entry }
        ensures cut { Cut self.entry result.0.bytes.now result.1 }
    {
        let end = find(self.rest, b'\n');
        let (line, rest) = self.rest.split_at((end + 1).min(self.rest.len()));
        (Line { bytes: line }, Reader { rest })
    }
}
