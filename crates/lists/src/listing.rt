ghost use Rattle.std.specs.Prelude.{Some};
ghost use Rattle.lists.specs.Printing.{bad_line};

use calls::written::Written;
use std::fmt;
use text::unread::Unread;

// A line that is not read, with its number.
#[derive(Clone, Copy)]
pub(crate) struct BadLine {
    pub(crate) line: usize,
    pub(crate) why: Unread,
}

impl fmt::Display for BadLine {
    ghost output = { λ bad. Some (bad_line bad.line bad.why) };

    fn fmt<W: fmt::Write>(&self, f: &mut fmt::Formatter<W>) -> fmt::Result {
        let number = self.why.number();
        writeln!(f, "line {} no {number}", self.line)
    }
}

// The calls that lines write, and the first line that is not read where there is one.
#[derive(Drop)]
pub(crate) struct Listing<E> {
    pub(crate) calls: Vec<Written<E>>,
    pub(crate) end: Option<BadLine>,
}
