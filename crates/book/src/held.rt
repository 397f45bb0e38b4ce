// The positions of a book in the market in force.
ghost use Rattle.std.specs.Prelude.{◌≡◌, ◌≤◌};
ghost use Rattle.book.specs.Losses.{gross, Fitting, Fitting-prop};
ghost use Rattle.book.specs.Markets.{variation_of};

use crate::market_in_force::MarketInForce;
use crate::position::Position;
use kinds::Kind;

#[derive(Drop)]
pub(crate) struct Held<'a, K: Kind> {
    pub(crate) positions: &'a [Position<K>],
    pub(crate) market: MarketInForce,
    // the market's, which the search asks for at every price
    pub(crate) variation: u32,
    ghost few: { gross positions.now ≤ 10000 },
    ghost told: { variation ≡ variation_of market.numbers },
    ghost fitting: { Fitting K.means variation market.numbers.ceiling positions.now } by { Fitting-prop K.means variation market.numbers.ceiling positions.now },
}
