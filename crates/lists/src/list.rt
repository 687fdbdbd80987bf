ghost use Rattle.std.specs.Prelude.{◌≡◌, ◌++◌, IfOk, string_bytes, OnOk};
ghost use Rattle.lists.specs.Printing.{AnswersBy, BodyBy, BodyOf, Printed, TakenBy, ending};

use crate::listing::BadLine;
use crate::piled::run_piled;
use crate::reading::read_calls;
use crate::turns::turns_of;
use answers::line::write_answers;
use calls::header::{Header, Held, read_header};
use calls::written::Written;
use elements::count::Count;
use elements::element::Element;
use elements::span::Span;
use engine::call::Turn;
use order::room::Room;
use std::alloc::{AllocError, Global};
use stores::record::Record;
use text::reader::Reader;
use text::unread::Unread;

// As many bytes as a list may have.
const MOST_BYTES: usize = 32768;

// The records of the chain store that a list runs on.
const RECORDS: usize = 64;

// What the text prints as a list of calls.
pub fn run_list(heap: Global, text: &[u8]) -> Result<String, AllocError>
    ensures { IfOk result (λ out. Printed text.now (string_bytes out)) }
{
    if text.len() > MOST_BYTES {
        // Told as line 0: no line of it is at fault.
        return BadLine {
            line: 0,
            why: Unread::TooLong,
        }
        .to_string(heap);
    }
    let (line, rest) = Reader::new(text).take_line();
    match read_header(line.bytes) {
        Ok(header) => run_body(heap, header, rest),
        Err(why) => BadLine { line: 1, why }.to_string(heap),
    }
}

// What the lines after the header print. The header's word becomes a type here, so this is a `match`.
fn run_body(heap: Global, header: Header, body: Reader<'_>) -> Result<String, AllocError>
    ensures { IfOk result (λ out. BodyOf header body.entry (string_bytes out)) }
{
    match header.held {
        Held::Count => run_calls::<Count>(heap, header.cells, body),
        Held::Span => run_calls::<Span>(heap, header.cells, body),
    }
}

// The same, where cells hold elements of this type.
fn run_calls<E: Element>(heap: Global, cells: u16, body: Reader<'_>) -> Result<String, AllocError>
    ensures { IfOk result (λ out. BodyBy E.Element cells body.entry (string_bytes out)) }
{
    let listing = read_calls::<E>(heap, body)?;
    let mut out = answer_calls(heap, cells, &listing.calls)?;
    push_end(&mut out, listing.end)?;
    Ok(out)
}

// Ends the output, with the line that is not read where there is one.
fn push_end(out: &mut String, end: Option<BadLine>) -> Result<(), AllocError>
    ensures { OnOk result (string_bytes out.new ≡ string_bytes out.old ++ ending end) }
{
    if let Some(bad) = end {
        write!(out, "{bad}")?;
    }
    Ok(())
}

// The lines of the calls' answers.
fn answer_calls<E: Element>(
    heap: Global,
    cells: u16,
    calls: &[Written<E>],
) -> Result<String, AllocError>
    ensures { IfOk result (λ out. AnswersBy E.Element cells calls.now (string_bytes out)) }
{
    let mut turns = turns_of(heap, calls)?;
    answer_turns(heap, cells, turns.as_mut_slice())
}

// The lines of the answers of the turns, which are taken on a new pile.
fn answer_turns<E: Element>(
    heap: Global,
    cells: u16,
    turns: &mut [Turn<E>],
) -> Result<String, AllocError>
    ensures { IfOk result (λ out. TakenBy E.Element cells turns.old turns.new (string_bytes out)) }
{
    let room = Room::reserve(heap)?;
    let mut heads = vec![in heap; 0u16; usize::from(cells)]?;
    let mut records = vec![in heap; Record::unused(); RECORDS]?;
    run_piled(room, heads.as_mut_slice(), records.as_mut_slice(), turns);
    let mut out = String::new(heap);
    write_answers(&mut out, turns)?;
    Ok(out)
}
