ghost use Rattle.std.specs.Prelude.{IfOk};
ghost use Rattle.lists.specs.Reading.{CallsReadBy};

use crate::listing::{BadLine, Listing};
use calls::line::read_call;
use elements::element::Element;
use std::alloc::{AllocError, Global};
use text::reader::Reader;
use text::unread::Stop;

// The calls of the lines that are left, the first of which is line 2.
pub(crate) fn read_calls<E: Element>(
    heap: Global,
    reader: Reader<'_>,
) -> Result<Listing<E>, AllocError>
    ensures { IfOk result (λ l. CallsReadBy E.Element 2 reader.entry l.calls.items l.end) }
{
    let mut calls = Vec::new(heap);
    let mut left = reader;
    while left.has_line() {
        let (line, rest) = left.take_line();
        match read_call::<E>(heap, line.bytes) {
            Ok(call) => calls.push(call)?,
            Err(Stop::No(why)) => {
                // Each line from line 2 on wrote a call.
                let line = calls.len() + 2;
                let end = Some(BadLine { line, why });
                return Ok(Listing { calls, end });
            }
            Err(Stop::Memory(error)) => return Err(error),
        }
        left = rest;
    }
    Ok(Listing { calls, end: None })
}
