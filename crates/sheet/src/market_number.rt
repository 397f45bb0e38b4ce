// The market's five numbers, in the order of their lines.
ghost use Rattle.std.specs.Prelude.{◌≡◌};
ghost use Rattle.sheet.specs.MarketNumbers.{market_place};

#[derive(Clone, Copy, PartialEq, Debug)]
pub enum MarketNumber {
    Ceiling,
    Reference,
    Factor,
    Size,
    Rate,
}

// The number's place among the five, from 1.
impl From<MarketNumber> for u8 {
    ghost from_gives = { λ which place. place ≡ market_place which };

    fn from(which: MarketNumber) -> u8 {
        match which {
            MarketNumber::Ceiling => 1,
            MarketNumber::Reference => 2,
            MarketNumber::Factor => 3,
            MarketNumber::Size => 4,
            MarketNumber::Rate => 5,
        }
    }
}

impl From<MarketNumber> for usize {
    ghost from_gives = { λ which place. place ≡ market_place which };

    fn from(which: MarketNumber) -> usize {
        usize::from(u8::from(which))
    }
}
