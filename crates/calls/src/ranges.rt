ghost use Rattle.std.specs.Prelude.{◌≡◌, ◌*◌, ◌%◌, ◌<◌, ◌≤◌, length, if◌then◌else◌, MatchResult, Ok, Err};
ghost use Rattle.calls.specs.Calls.{access_numbers, AccessesFit};
ghost use Rattle.text.specs.Unread.{Stopped};
ghost use Rattle.text.specs.declared.unread.Unread.TheVariants.{OutOfRange};

use kinds::access::Access;
use std::alloc::Global;
use text::unread::{Stop, Unread};

// The number in the type of its place: of a task, a cell, a bound or a code.
pub(crate) fn fit<T: TryFrom<u64>>(n: u64) -> Result<T, Unread>
where
    T::Error: Drop,
    ensures { MatchResult result (λ x. T.try_from_gives n (Ok x)) (λ why. (why ≡ OutOfRange) × ((e : T.Error) × T.try_from_gives n (Err e))) }
{
    T::try_from(n).map_err(|_| Unread::OutOfRange)
}

// The number as a flag. By cases, since no number converts to a `bool`.
pub(crate) fn flag(n: u64) -> Result<bool, Unread>
    ensures { MatchResult result (λ b. ((if b then 1 else 0) ≡ n) × (n ≤ 1)) (λ why. (why ≡ OutOfRange) × (1 < n)) }
{
    match n {
        0 => Ok(false),
        1 => Ok(true),
        _ => Err(Unread::OutOfRange),
    }
}

// The numbers as accesses, three to each.
#[tactic(auto, using(crate::proofs::Accesses::taking_no))]
pub(crate) fn accesses(heap: Global, numbers: &[u64]) -> Result<Vec<Access>, Stop>
    requires { length numbers.now % 3 ≡ 0 }
    ensures { MatchResult result (λ v. (access_numbers v.items ≡ numbers.now) × AccessesFit numbers.now × (3 * length v.items ≡ length numbers.now)) (λ s. Stopped s (λ why. (why ≡ OutOfRange) × (AccessesFit numbers.now → ⊥))) }
{
    let mut accesses = Vec::new(heap);
    for &[lo, hi, code] in numbers.as_chunks::<3>().0 {
        accesses.push(Access {
            lo: fit(lo)?,
            hi: fit(hi)?,
            code: fit(code)?,
        })?;
    }
    Ok(accesses)
}
