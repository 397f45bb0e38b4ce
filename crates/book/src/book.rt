// A book: places, a market and the positions held, and in its invariant all that they keep.
ghost use Rattle.std.specs.Prelude.{◌≡◌, ◌≤◌, true, vec_len, vec_capacity};
ghost use Rattle.book.specs.Losses.{gross, all_held, Fitting, Fitting-prop, Distinct, Distinct-prop};
ghost use Rattle.book.specs.Markets.{variation_of};

use crate::market_in_force::MarketInForce;
use crate::position::Position;
use kinds::Kind;

#[derive(Drop)]
pub struct Book<K: Kind> {
    pub(crate) places: usize,
    pub(crate) market: MarketInForce,
    pub(crate) positions: Vec<Position<K>>,
    // room for the contracts of a sheet while it is checked
    pub(crate) seen: Vec<K>,
    ghost some: { 1 ≤ places },
    ghost most: { places ≤ 128 },
    ghost within: { vec_len positions ≤ places },
    ghost room: { places ≤ vec_capacity positions },
    ghost few: { gross positions.items ≤ 10000 },
    ghost held: { all_held positions.items ≡ true },
    ghost spare: { places ≤ vec_capacity seen },
    ghost fitting: { Fitting K.means (variation_of market.numbers) market.numbers.ceiling positions.items } by { Fitting-prop K.means (variation_of market.numbers) market.numbers.ceiling positions.items },
    ghost distinct: { Distinct K.means positions.items } by { Distinct-prop K.means positions.items },
}
