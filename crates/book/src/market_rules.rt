// The ranges of a market's numbers, its variation and its units.
ghost use Rattle.std.specs.Prelude.{◌≡◌, ◌*◌, nat_lt, true, false, None, Some, MatchResult};
ghost use Rattle.sheet.specs.MarketNumbers.{market_place};
ghost use Rattle.book.specs.Markets.{outside, market_refusal, variation_of, price_unit, value_unit};

use crate::market::Market;
use crate::market_in_force::MarketInForce;
use crate::refusal::Refusal;
use kinds::Kind;
use sheet::MarketNumber;

// Whether n lies outside low to high.
pub(crate) fn outside(n: u32, low: u32, high: u32) -> bool
    ensures { result ≡ outside n low high }
{
    !(low..=high).contains(&n)
}

// One of the market's numbers, which lies from low to high.
fn within(which: MarketNumber, n: u32, low: u32, high: u32) -> Result<(), Refusal>
    ensures { MatchResult result (λ _. outside n low high ≡ false) (λ e. (outside n low high ≡ true) × (e ≡ Refusal.MarketNumber (market_place which))) }
{
    if outside(n, low, high) {
        return Err(Refusal::MarketNumber(u8::from(which)));
    }
    Ok(())
}

impl Market {
    // Whether ceiling × size × rate is too large.
    pub(crate) fn is_too_large(&self) -> bool
        ensures { result ≡ nat_lt 5000000000000 (self.now.ceiling * self.now.size * self.now.rate) }
    {
        u128::from(self.ceiling) * u128::from(self.size) * u128::from(self.rate) > 5_000_000_000_000
    }

    // The market that the five numbers are.
    pub(crate) fn in_force(self) -> Result<MarketInForce, Refusal>
        ensures { MatchResult result (λ m. (market_refusal self ≡ None) × (m.numbers ≡ self)) (λ e. market_refusal self ≡ Some e) }
    {
        within(MarketNumber::Ceiling, self.ceiling, 1, 20_000_000)?;
        within(MarketNumber::Reference, self.reference, 1, self.ceiling)?;
        within(MarketNumber::Factor, self.factor, 0, 10_000)?;
        within(MarketNumber::Size, self.size, 1, 1_000)?;
        within(MarketNumber::Rate, self.rate, 1, 99_999)?;
        if self.is_too_large() {
            return Err(Refusal::Product);
        }
        Ok(MarketInForce { numbers: self })
    }
}

impl MarketInForce {
    // Reference price × factor ÷ 10,000, cut.
    pub(crate) fn variation(&self) -> u32
        ensures { result ≡ variation_of self.now.numbers }
    {
        (u64::from(self.numbers.reference) * u64::from(self.numbers.factor) / 10_000) as u32
    }

    // The exact units in one hundredth of a point of one contract.
    pub(crate) fn price_unit(&self) -> u64
        ensures { result ≡ price_unit self.now.numbers }
    {
        100 * self.value_unit()
    }

    // The exact units in one ten-thousandth of a point of one contract.
    pub(crate) fn value_unit(&self) -> u64
        ensures { result ≡ value_unit self.now.numbers }
    {
        u64::from(self.numbers.size) * u64::from(self.numbers.rate)
    }

    // Whether a contract fits.
    pub(crate) fn admits<K: Kind>(&self, contract: &K) -> bool
        ensures { result ≡ K.means.fits contract.now (variation_of self.now.numbers) self.now.numbers.ceiling }
    {
        contract.fits(self.variation(), self.numbers.ceiling)
    }
}
