// Calls and puts: what the two sides of an option have in common in every kind.
ghost use Rattle.std.specs.Prelude.{◌≡◌, min};
ghost use Rattle.kinds.specs.Sides.{pays, moved, side_fits, side_same};

#[derive(Clone, Copy, PartialEq, Eq, Debug)]
pub enum Side {
    Call,
    Put,
}

// Strikes are passed beside the side: a contract's record holds both, and its strike may be out of range.
impl Side {
    // What an option without limiter pays: a call price less strike, a put strike less price, never below zero.
    pub fn payment(self, strike: u32, price: u32) -> u32
        ensures { result ≡ pays self strike price }
    {
        match self {
            Side::Call => price.saturating_sub(strike),
            Side::Put => strike.saturating_sub(price),
        }
    }

    // The strike moved by the variation to where a sold option stops losing: up for a call, down for a put.
    pub fn moved(self, strike: u32, variation: u32) -> u32
        ensures { result ≡ min (moved self strike variation) 4294967295 }
    {
        match self {
            Side::Call => strike.saturating_add(variation),
            Side::Put => strike.saturating_sub(variation),
        }
    }

    // Whether an option without limiter fits a variation and a ceiling: its strike, and where it stops losing under the variation, lie from 0 to the ceiling.
    pub(crate) fn fits(self, strike: u32, variation: u32, ceiling: u32) -> bool
        ensures { result ≡ side_fits self strike variation ceiling }
    {
        match self {
            Side::Call => strike <= ceiling && variation <= ceiling - strike,
            Side::Put => variation <= strike && strike <= ceiling,
        }
    }

    pub fn same(self, other: Side) -> bool
        ensures { result ≡ side_same self other }
    {
        self == other
    }
}
