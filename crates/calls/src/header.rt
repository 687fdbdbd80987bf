ghost use Rattle.std.specs.Prelude.{◌≡◌, ℕ, List, ◌++◌, MatchOption, MatchResult, ◌≢◌};
ghost use Rattle.calls.specs.Header.{name_of, HeaderForm, HeaderRead, NoHeader};
ghost use Rattle.calls.specs.declared.header.Header.{Header as First};
ghost use Rattle.calls.specs.declared.header.Held.{Held as Kind};

use crate::line::front;
use text::numbers::take_number;
use text::unread::Unread;

const MOST_CELLS: u64 = 256;

// What the cells of a list hold.
#[derive(Clone, Copy, PartialEq, Eq, Debug)]
pub enum Held {
    Count,
    Span,
}

// What the first line says.
#[derive(Clone, Copy, PartialEq, Eq, Debug)]
pub struct Header {
    pub held: Held,
    pub cells: u16,
}

// The header that the line writes.
pub fn read_header(line: &[u8]) -> Result<Header, Unread>
    ensures { MatchResult result (HeaderRead line.now) (NoHeader line.now) }
{
    header_of(front(line)?).ok_or(Unread::BadHeader)
}

fn header_of(front: &[u8]) -> Option<Header>
    ensures { MatchOption result ((h : First) → HeaderForm front.now h → ⊥) (HeaderForm front.now) }
{
    let (held, tail) = take_name(front)?;
    match take_number(tail)? {
        (cells @ 1..=MOST_CELLS, []) => Some(Header {
            held,
            cells: cells as u16,
        }),
        _ => None,
    }
}

// The word that the bytes begin with, and what follows it.
fn take_name(bytes: &[u8]) -> Option<(Held, &[u8])>
    ensures { MatchOption result ((k : Kind) (tail : List ℕ) → bytes.now ≢ name_of k ++ tail) (λ p. bytes.now ≡ name_of p.0 ++ p.1.now) }
{
    bytes
        .strip_prefix(b"count")
        .map(|tail| (Held::Count, tail))
        .or_else(|| Some((Held::Span, bytes.strip_prefix(b"span")?)))
}
