// Flexible options: a call or a put with a strike, whose limiter may be absent.
ghost use Rattle.std.specs.Prelude.{◌≡◌, ℕ, min, [], ◌∷◌};
ghost use Rattle.kinds.specs.Kinds.{WhereFits};
ghost use Rattle.kinds.specs.CornerPrices.{prices};
ghost use Rattle.kinds.specs.Sides.{pays};
ghost use Rattle.kinds.specs.FlexibleOptions.{flexible, flexible_made, limited, strike_and_limiter, moved_within, limiter_right};
ghost use Rattle.kinds.specs.FlexibleRules.{flexible_lawful};

use crate::contract_refusal::ContractRefusal;
use crate::corners::Corners;
use crate::kind::Kind;
use crate::side::Side;
use crate::strike::is_strike;

// A plain record: its numbers may be out of range, and then it fits nothing.
#[derive(Clone, Copy, PartialEq, Eq, Debug)]
pub struct Flexible {
    pub side: Side,
    pub strike: u32,
    pub limiter: Option<u32>,
}

impl Flexible {
    pub fn new(side: Side, strike: u32, limiter: Option<u32>) -> Result<Flexible, ContractRefusal>
        ensures { result ≡ flexible_made side strike limiter }
    {
        if !is_strike(strike) {
            return Err(ContractRefusal::Strike);
        }
        let contract = Flexible {
            side,
            strike,
            limiter,
        };
        if !contract.has_limiter_in_range() {
            return Err(ContractRefusal::Limiter);
        }
        Ok(contract)
    }

    // Whether the limiter is absent or lies in its range, on the right side of the strike.
    fn has_limiter_in_range(&self) -> bool
        ensures { result ≡ limiter_right self.now.side self.now.strike self.now.limiter }
    {
        match (self.side, self.limiter) {
            (_, None) => true,
            (Side::Call, Some(limiter)) => self.strike < limiter && limiter <= 20_000_000,
            (Side::Put, Some(limiter)) => limiter < self.strike,
        }
    }

    // The price that the option pays on: a call on the lesser of price and limiter, a put on the greater.
    fn limited(&self, price: u32) -> u32
        ensures { result ≡ limited self.now.side self.now.limiter price }
    {
        match (self.side, self.limiter) {
            (_, None) => price,
            (Side::Call, Some(limiter)) => price.min(limiter),
            (Side::Put, Some(limiter)) => price.max(limiter),
        }
    }
}

impl Kind for Flexible {
    ghost means = { flexible };

    ghost lawful = { flexible_lawful };

    fn payment(&self, price: u32) -> u32
        ensures told { (v : ℕ) → WhereFits flexible self.now v price (result ≡ flexible.payment self.now price) }
        ensures exact { result ≡ pays self.now.side self.now.strike (limited self.now.side self.now.limiter price) }
    {
        self.side.payment(self.strike, self.limited(price))
    }

    // Not a provided method of `Kind`: that could promise only where a contract fits, and this holds at every price.
    fn payment_under(&self, variation: u32, price: u32) -> u32
        ensures told { WhereFits flexible self.now variation price (result ≡ flexible.payment_under self.now variation price) }
        ensures exact { result ≡ min (pays self.now.side self.now.strike (limited self.now.side self.now.limiter price)) variation }
    {
        self.payment(price).min(variation)
    }

    fn corners(&self) -> Corners
        ensures told { (v : ℕ) → WhereFits flexible self.now v 0 (prices result ≡ flexible.corners self.now) }
        ensures exact { prices result ≡ strike_and_limiter self.now.strike self.now.limiter }
    {
        match self.limiter {
            None => Corners::One(self.strike),
            Some(limiter) => Corners::Two(self.strike, limiter),
        }
    }

    fn corners_under(&self, variation: u32) -> Corners
        ensures told { WhereFits flexible self.now variation 0 (prices result ≡ flexible.corners_under self.now variation) }
        ensures exact { prices result ≡ self.now.strike ∷ min (moved_within self.now.side self.now.strike self.now.limiter variation) 4294967295 ∷ [] }
    {
        Corners::Two(
            self.strike,
            self.limited(self.side.moved(self.strike, variation)),
        )
    }

    fn fits(&self, variation: u32, ceiling: u32) -> bool {
        let within = match (self.side, self.limiter) {
            (side, None) => side.fits(self.strike, variation, ceiling),
            (Side::Call, Some(limiter)) => limiter <= ceiling,
            (Side::Put, Some(_)) => self.strike <= ceiling,
        };
        is_strike(self.strike) && self.has_limiter_in_range() && within
    }

    // Not a provided method of `Kind`: that would ask `PartialEq` of every kind.
    fn same(&self, other: &Flexible) -> bool {
        self == other
    }
}
