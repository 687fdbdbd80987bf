ghost use Rattle.std.specs.Prelude.{◌≡◌, ℕ, min, length};
ghost use Rattle.stores.specs.Store.{most, reached, extent};

// How many places a store takes of so many: 65,535 at most.
pub(crate) fn reach(places: usize) -> u16
    ensures { result ≡ min most places }
{
    u16::try_from(places).unwrap_or(u16::MAX)
}

// The same of the places themselves.
pub(crate) fn reach_of<T>(places: &[T]) -> u16
    ensures extent { result ≡ extent places.now }
    ensures length { result ≡ length (reached places.now) }
{
    reach(places.len())
}
