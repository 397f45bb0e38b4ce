// What a portfolio pays in all: the total at a price, and the lowest total at some prices.
ghost use Rattle.std.specs.Prelude.{◌≡◌};
ghost use Rattle.circular.specs.Totals.{total, lowest};

use portfolios::Portfolio;

// What all positions pay at a price, in centavos.
pub(crate) fn total_at(portfolio: &Portfolio, price: u32) -> i128
    ensures { result ≡ total portfolio.now.holdings.now price }
{
    let mut sum: i128 = 0;
    for holding in portfolio.holdings {
        sum += holding.pays(price);
    }
    sum
}

// The lowest of zero and the totals at these prices, in centavos. A loop, since a fold of signed numbers is not proved without more text.
pub(crate) fn lowest_total(portfolio: &Portfolio, prices: &[u32]) -> i128
    ensures { result ≡ lowest portfolio.now.holdings.now prices.now }
{
    let mut low: i128 = 0;
    for price in prices {
        low = low.min(total_at(portfolio, *price));
    }
    low
}
