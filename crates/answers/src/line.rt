ghost use Rattle.std.specs.Prelude.{◌≡◌, ◌++◌, ℕ, List, is_ok, if◌then◌else◌, string_bytes, Some};
ghost use Rattle.std.specs.Iterator.{AlwaysYields, IsFinite};
ghost use Rattle.std.specs.Fmt.{WritesOnOk};
ghost use Rattle.text.specs.Form.{spaced};
ghost use Rattle.answers.specs.Writing.{Wrote, line_of, refusal_text, reply_text};

use elements::element::Element;
use engine::call::{Reply, Turn};
use engine::refusal::Refusal;
use std::alloc::AllocError;
use std::fmt;
use stores::fault::Fault;

// The bytes that a line first gets: enough for all but long ready lists and values of many numbers. A line that grew piece by piece would be
// moved for most pieces.
const LINE_ROOM: usize = 64;

// Each number after a space.
fn write_spaced<W: fmt::Write, I: Iterator<Item = u64> + Drop>(
    f: &mut fmt::Formatter<W>,
    numbers: I,
) -> fmt::Result
    requires can { I.can_next numbers }
    requires ends { IsFinite (I.remaining numbers) }
    ensures { (ns : List ℕ) → AlwaysYields I.next_gives (λ n. n) numbers ns → WritesOnOk W.write_str_gives f.old result (spaced ns) f.new }
{
    for n in numbers {
        write!(f, " {n}")?;
    }
    Ok(())
}

// A refusal: its number, and where the store refused also the cause, depth and cell of its fault.
#[derive(Clone, Copy)]
struct Refused(Refusal);

impl fmt::Display for Refused {
    ghost output = { λ r. Some (refusal_text r.0) };

    fn fmt<W: fmt::Write>(&self, f: &mut fmt::Formatter<W>) -> fmt::Result {
        let number = self.0.number();
        match self.0 {
            Refusal::Rule(_) => write!(f, "no {number}"),
            Refusal::Store(Fault { cause, depth, cell }) => {
                let cause = cause.number();
                write!(f, "no {number} {cause} {depth} {cell}")
            }
        }
    }
}

// What an accepted call answers.
#[derive(Clone, Copy)]
struct Accepted<'a, E>(&'a Reply<E>);

impl<E: Element> fmt::Display for Accepted<'_, E> {
    ghost output = { λ r. Some (reply_text E.Element.numbers r.0.now) };

    fn fmt<W: fmt::Write>(&self, f: &mut fmt::Formatter<W>) -> fmt::Result {
        match self.0 {
            Reply::Done => write!(f, "ok"),
            Reply::Task(n) => write!(f, "task {n}"),
            Reply::Value(value) => {
                write!(f, "value")?;
                write_spaced(f, (0..E::WIDTH).map(|i| value.number(i)))
            }
            Reply::Ready { count, list } => {
                write!(f, "ready")?;
                write_spaced(f, list.iter().take(*count).map(|n| u64::from(*n)))
            }
        }
    }
}

// The line of an answer, with its end.
#[derive(Clone, Copy)]
struct Line<'a, E>(&'a Result<Reply<E>, Refusal>);

impl<E: Element> fmt::Display for Line<'_, E> {
    ghost output = { λ l. Some (line_of E.Element.numbers l.0.now) };

    fn fmt<W: fmt::Write>(&self, f: &mut fmt::Formatter<W>) -> fmt::Result {
        match self.0 {
            Ok(reply) => write!(f, "{}", Accepted(reply))?,
            Err(why) => write!(f, "{}", Refused(*why))?,
        }
        f.write_char('\n')
    }
}

// Writes the line of an answer after what the text has. Where memory does not suffice, the text stays as it was.
pub fn write_answer<E: Element>(
    out: &mut String,
    answer: &Result<Reply<E>, Refusal>,
) -> Result<(), AllocError>
    ensures { string_bytes out.new ≡ (if is_ok result then string_bytes out.old ++ line_of E.Element.numbers answer.now else string_bytes out.old) }
{
    let mut line = String::with_capacity(*out.allocator(), LINE_ROOM)?;
    write!(line, "{}", Line(answer))?;
    out.push_str(line.as_str())
}

// Writes the lines of the turns' answers, in their order, after what the text has. Where memory does not suffice, the text
// has whole lines of the first turns.
pub fn write_answers<E: Element>(out: &mut String, turns: &[Turn<E>]) -> Result<(), AllocError>
    ensures { Wrote E.Element.numbers (string_bytes out.old) turns.now result (string_bytes out.new) }
{
    for turn in turns {
        write_answer(out, &turn.answer)?;
    }
    Ok(())
}
