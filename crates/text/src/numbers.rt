ghost use Rattle.std.specs.Prelude.{◌≡◌, ℕ, List, [], IfErr, MatchOption, MatchResult, ◌≢◌};
ghost use Rattle.text.specs.Form.{DigitsRead, Took, Writes};
ghost use Rattle.text.specs.Unread.{Stopped, Wanting};
ghost use Rattle.text.specs.declared.unread.Unread.TheVariants.{BadNumbers};

use crate::find::find;
use crate::unread::{Stop, Unread};
use std::alloc::Global;

// What stands before each number.
const SPACE: u8 = b' ';

// The numbers that the bytes write, each after one space. Memory can be wanting only where there are bytes.
pub fn read_numbers(heap: Global, bytes: &[u8]) -> Result<Vec<u64>, Stop>
    ensures read { MatchResult result (λ v. Writes bytes.now v.items) (λ s. Stopped s (λ why. (why ≡ BadNumbers) × ((ns : List ℕ) → Writes bytes.now ns → ⊥))) }
    ensures wanting { IfErr result (λ s. Wanting s (bytes.now ≢ [])) }
{
    let mut numbers = Vec::new(heap);
    let mut rest = bytes;
    while !rest.is_empty() {
        let (number, more) = take_number(rest).ok_or(Unread::BadNumbers)?;
        numbers.push(number)?;
        rest = more;
    }
    Ok(numbers)
}

// The number that the bytes begin with after a space, and what follows it.
pub fn take_number(bytes: &[u8]) -> Option<(u64, &[u8])>
    ensures { MatchOption result ((n : ℕ) (rest : List ℕ) → Took bytes.now n rest → ⊥) (λ p. Took bytes.now p.0 p.1.now) }
{
    let [SPACE, word @ ..] = bytes else {
        return None;
    };
    let (digits, rest) = word.split_at(find(word, SPACE));
    Some((number_of(digits)?, rest))
}

// The number that the bytes write in decimal, where they write one: without leading zeros, and below 2^64.
fn number_of(digits: &[u8]) -> Option<u64>
    ensures { DigitsRead digits.now result }
{
    if digits.is_empty() {
        return None;
    }
    if digits[0] == b'0' && digits.len() > 1 {
        return None;
    }
    // A `for` and no `parse`, which needs the word checked to be text: with both, reading a call takes 1.4 to 1.75 times as long.
    let mut number: u64 = 0;
    for b in digits {
        if *b < b'0' || *b > b'9' {
            return None;
        }
        number = number.checked_mul(10)?.checked_add(u64::from(*b - b'0'))?;
    }
    Some(number)
}
