// Listed options: a call or a put with a strike.
ghost use Rattle.std.specs.Prelude.{◌≡◌, ℕ, min, [], ◌∷◌};
ghost use Rattle.kinds.specs.Kinds.{WhereFits};
ghost use Rattle.kinds.specs.CornerPrices.{prices};
ghost use Rattle.kinds.specs.Sides.{pays, moved};
ghost use Rattle.kinds.specs.ListedOptions.{listed, listed_made};
ghost use Rattle.kinds.specs.ListedRules.{listed_lawful};

use crate::contract_refusal::ContractRefusal;
use crate::corners::Corners;
use crate::kind::Kind;
use crate::side::Side;
use crate::strike::is_strike;

// A plain record: its strike may be out of range, and then it fits nothing.
#[derive(Clone, Copy, PartialEq, Eq, Debug)]
pub struct Listed {
    pub side: Side,
    pub strike: u32,
}

impl Listed {
    pub fn new(side: Side, strike: u32) -> Result<Listed, ContractRefusal>
        ensures { result ≡ listed_made side strike }
    {
        if !is_strike(strike) {
            return Err(ContractRefusal::Strike);
        }
        Ok(Listed { side, strike })
    }
}

impl Kind for Listed {
    ghost means = { listed };

    ghost lawful = { listed_lawful };

    fn payment(&self, price: u32) -> u32
        ensures told { (v : ℕ) → WhereFits listed self.now v price (result ≡ listed.payment self.now price) }
        ensures exact { result ≡ pays self.now.side self.now.strike price }
    {
        self.side.payment(self.strike, price)
    }

    // Not a provided method of `Kind`: that could promise only where a contract fits, and this holds at every price.
    fn payment_under(&self, variation: u32, price: u32) -> u32
        ensures told { WhereFits listed self.now variation price (result ≡ listed.payment_under self.now variation price) }
        ensures exact { result ≡ min (pays self.now.side self.now.strike price) variation }
    {
        self.payment(price).min(variation)
    }

    fn corners(&self) -> Corners
        ensures told { (v : ℕ) → WhereFits listed self.now v 0 (prices result ≡ listed.corners self.now) }
        ensures exact { prices result ≡ self.now.strike ∷ [] }
    {
        Corners::One(self.strike)
    }

    fn corners_under(&self, variation: u32) -> Corners
        ensures told { WhereFits listed self.now variation 0 (prices result ≡ listed.corners_under self.now variation) }
        ensures exact { prices result ≡ self.now.strike ∷ min (moved self.now.side self.now.strike variation) 4294967295 ∷ [] }
    {
        Corners::Two(self.strike, self.side.moved(self.strike, variation))
    }

    fn fits(&self, variation: u32, ceiling: u32) -> bool {
        is_strike(self.strike) && self.side.fits(self.strike, variation, ceiling)
    }

    // Not a provided method of `Kind`: that would ask `PartialEq` of every kind.
    fn same(&self, other: &Listed) -> bool {
        self == other
    }
}
