ghost use Rattle.std.specs.Prelude.{◌≡◌};

// One access as it is asked for: the cells from lo up to, not including, hi, and the raw code of its kind.
// Raw, since a caller may ask with any code, and one that stands for nothing is refused in its turn.
#[derive(Clone, Copy, Debug, PartialEq, Eq)]
pub struct Access {
    pub lo: u16,
    pub hi: u16,
    pub code: u8,
}

impl Access {
    pub fn new(lo: u16, hi: u16, code: u8) -> Access
        ensures { result ≡ record { lo = lo; hi = hi; code = code } }
    {
        Access { lo, hi, code }
    }
}

// The codes that stand for a holding.
impl Access {
    pub const IN: u8 = 1;

    pub const OUT: u8 = 2;

    pub const INOUT: u8 = 3;

    pub const CONCURRENT: u8 = 4;

    pub const COMMUTATIVE: u8 = 5;

    pub const WEAK_IN: u8 = 6;

    pub const WEAK_OUT: u8 = 7;

    pub const WEAK_INOUT: u8 = 8;
}
