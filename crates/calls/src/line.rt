ghost use Rattle.std.specs.Prelude.{◌≡◌, ℕ, ◌*◌, List, [], ◌∷◌, ◌++◌, length, Some, None, IfErr, MatchResult, ◌≢◌};
ghost use Rattle.calls.specs.Calls.{byte_of, Lettered, LineRead, NumbersRead};
ghost use Rattle.text.specs.Unread.{Wanting};
ghost use Rattle.calls.specs.declared.letter.Letter.{Letter as Named};
ghost use Rattle.calls.specs.declared.letter.Letter.TheVariants.{Create};
ghost use Rattle.text.specs.declared.unread.Unread.TheVariants.{NoLineEnd, UnknownLetter, OutOfRange};

use crate::letter::Letter;
use crate::ranges::{accesses, fit, flag};
use crate::written::Written;
use elements::element::Element;
use std::alloc::Global;
use text::numbers::read_numbers;
use text::unread::{Stop, Unread};

// The call that the line writes. Memory can be wanting only where the line has its end and its letter.
pub fn read_call<E: Element>(heap: Global, line: &[u8]) -> Result<Written<E>, Stop>
    ensures read { LineRead E.Element line.now result }
    ensures wanting { IfErr result (λ s. Wanting s (Lettered line.now)) }
{
    let (letter, tail) = take_letter(front(line)?)?;
    let numbers = read_numbers(heap, tail)?;
    written(heap, letter, &numbers)
}

// What stands before the byte 10 at the line's end.
pub fn front(line: &[u8]) -> Result<&[u8], Unread>
    ensures { MatchResult result (λ f. line.now ≡ f.now ++ (10 ∷ [])) (λ why. (why ≡ NoLineEnd) × ((f : List ℕ) → line.now ≢ f ++ (10 ∷ []))) }
{
    line.strip_suffix(b"\n").ok_or(Unread::NoLineEnd)
}

// The letter that the bytes begin with, and what follows it.
fn take_letter(bytes: &[u8]) -> Result<(Letter, &[u8]), Unread>
    ensures { MatchResult result (λ p. bytes.now ≡ byte_of p.0 ∷ p.1.now) (λ why. (why ≡ UnknownLetter) × ((l : Named) (tail : List ℕ) → bytes.now ≢ byte_of l ∷ tail)) }
{
    let (first, tail) = bytes.split_first().ok_or(Unread::UnknownLetter)?;
    Ok((Letter::try_from(char::from(*first))?, tail))
}

// The call that a letter and the numbers after it write.
fn written<E: Element>(heap: Global, letter: Letter, numbers: &[u64]) -> Result<Written<E>, Stop>
    ensures { NumbersRead E.Element letter numbers.now result }
{
    match (letter, numbers) {
        (Letter::Create, [parent, waits, count, rest @ ..])
            if rest.len() % 3 == 0 && *count == (rest.len() / 3) as u64 => {
            create(heap, *parent, *waits, *count, rest)
        }
        (Letter::Start, [task]) => Ok(Written::Start { task: fit(*task)? }),
        (Letter::Finish, [task]) => Ok(Written::Finish { task: fit(*task)? }),
        (Letter::Wait, [task]) => Ok(Written::Wait { task: fit(*task)? }),
        (Letter::Resume, [task]) => Ok(Written::Resume { task: fit(*task)? }),
        (Letter::Release, [task, lo, hi]) => Ok(Written::Release {
            task: fit(*task)?,
            lo: fit(*lo)?,
            hi: fit(*hi)?,
        }),
        (Letter::Read, [task, cell]) => Ok(Written::Read {
            task: fit(*task)?,
            cell: fit(*cell)?,
        }),
        (Letter::Write, [task, cell, rest @ ..]) if rest.len() == E::WIDTH => Ok(Written::Write {
            task: fit(*task)?,
            cell: fit(*cell)?,
            value: value(rest)?,
        }),
        (Letter::Update, [task, cell, by @ ..]) if by.len() == E::WIDTH => Ok(Written::Update {
            task: fit(*task)?,
            cell: fit(*cell)?,
            amount: value(by)?,
        }),
        (Letter::Look, [cell]) => Ok(Written::Look { cell: fit(*cell)? }),
        (Letter::Ready, []) => Ok(Written::Ready),
        _ => Err(Stop::No(Unread::WrongCount)),
    }
}

// The call that creates a task: rest has the numbers of as many accesses as count says.
fn create<E: Element>(
    heap: Global,
    parent: u64,
    waits: u64,
    count: u64,
    rest: &[u64],
) -> Result<Written<E>, Stop>
    requires { length rest.now ≡ 3 * count }
    ensures { NumbersRead E.Element Create (parent ∷ (waits ∷ (count ∷ rest.now))) result }
{
    // The count is a number of the line too, with a limit of its own; the accesses say it again.
    fit::<u8>(count)?;
    Ok(Written::Create {
        parent: fit(parent)?,
        waits: flag(waits)?,
        accesses: accesses(heap, rest)?,
    })
}

// The value that the numbers make.
fn value<E: Element>(numbers: &[u64]) -> Result<E, Unread>
    ensures { MatchResult result (λ v. E.Element.made numbers.now ≡ Some v) (λ why. (why ≡ OutOfRange) × (E.Element.made numbers.now ≡ None)) }
{
    E::from_numbers(numbers).ok_or(Unread::OutOfRange)
}
