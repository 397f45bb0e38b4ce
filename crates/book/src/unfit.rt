// The first position whose contract does not fit a market.
ghost use Rattle.std.specs.Prelude.{◌≡◌};
ghost use Rattle.book.specs.Markets.{variation_of};
ghost use Rattle.book.specs.Tallies.{first_unfit};

use crate::market_in_force::MarketInForce;
use crate::position::Position;
use kinds::Kind;

pub(crate) fn first_unfit<K: Kind>(
    positions: &[Position<K>],
    market: &MarketInForce,
) -> Option<usize>
    ensures { result ≡ first_unfit K.means (variation_of market.now.numbers) market.now.numbers.ceiling positions.now }
{
    positions
        .iter()
        .position(|position| !market.admits(&position.contract))
}
