ghost use Rattle.std.specs.Prelude.{◌≡◌, ℕ, List, length, Some, None, Option, ◌≢◌, slice_index};

// A type of cell value: at rest before anything is written, written by numbers, and updated by an amount of the same type.
pub trait Element: Sized + Copy {
    // How many numbers write a value.
    const WIDTH: usize;

    ghost rest: { Self };

    ghost WIDTH: { ℕ };

    ghost numbers: { Self → List ℕ };

    ghost made: { List ℕ → Option Self };

    ghost updated: { Self → Self → Self };

    fn at_rest() -> Self
        ensures { result ≡ rest };

    // The number at place `i` of those that write the value, 0 past the last; an array of `WIDTH` numbers cannot be named here.
    fn number(self, i: usize) -> u64
        ensures { result ≡ slice_index (numbers self) i };

    // No `TryFrom<&[u64]>`: a bound cannot ask it for slices of every lifetime.
    fn from_numbers(ns: &[u64]) -> Option<Self>
        ensures { result ≡ made ns.now };

    fn update(self, amount: Self) -> Self
        ensures { result ≡ updated self amount };

    // The order of two updates does not matter.
    ghost commutes: { (v a b : Self) → updated (updated v a) b ≡ updated (updated v b) a };

    // A value made from the numbers it gives is that value.
    ghost regained: { (v : Self) → made (numbers v) ≡ Some v };

    // A made value gives the numbers it was made from.
    ghost faithful: { (ns : List ℕ) (v : Self) → made ns ≡ Some v → numbers v ≡ ns };

    // A list of another length makes nothing.
    ghost sized: { (ns : List ℕ) → (length ns ≢ WIDTH) → made ns ≡ None };
}
