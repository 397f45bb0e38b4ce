// The quantity of a trade: 1 to 10,000 contracts, bought above zero, sold below.
ghost use Rattle.std.specs.Prelude.{◌≡◌, ◌≤◌, true, false, unsigned_abs, MatchResult};
ghost use Rattle.book.specs.declared.refusal.Refusal.TheVariants as refusal;
ghost use Rattle.book.specs.Markets.{outside};

use crate::market_rules::outside;
use crate::refusal::Refusal;

#[derive(Clone, Copy)]
pub(crate) struct Quantity {
    pub(crate) contracts: i32,
    ghost some: { 1 ≤ unsigned_abs contracts },
    ghost most: { unsigned_abs contracts ≤ 10000 },
}

impl Quantity {
    pub(crate) fn new(contracts: i32) -> Result<Quantity, Refusal>
        ensures { MatchResult result (λ q. (outside (unsigned_abs contracts) 1 10000 ≡ false) × (q.contracts ≡ contracts)) (λ e. (outside (unsigned_abs contracts) 1 10000 ≡ true) × (e ≡ refusal.Quantity)) }
    {
        if outside(contracts.unsigned_abs(), 1, 10_000) {
            return Err(Refusal::Quantity);
        }
        Ok(Quantity { contracts })
    }
}
