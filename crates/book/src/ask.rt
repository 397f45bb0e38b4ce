// The questions that a book answers without changing.
ghost use Rattle.std.specs.Prelude.{◌≡◌, length, vec_items};
ghost use Rattle.book.specs.Losses.{loss};
ghost use Rattle.book.specs.Markets.{variation_of, price_unit};
ghost use Rattle.book.specs.Prices.{Margin};
ghost use Rattle.book.specs.Scenarios.{RequiredTold};
ghost use Rattle.book.specs.Tallies.{Kept, tally_of, PositionTold, ValueTold};

use crate::book::Book;
use crate::held::Held;
use crate::market::Market;
use crate::position::Position;
use crate::refusal::Refusal;
use crate::scenario::first_above;
use kinds::Kind;

impl<K: Kind> Book<K> {
    pub fn places(&self) -> usize
        ensures { result ≡ (tally_of self.now).places }
    {
        self.places
    }

    pub fn market(&self) -> Market
        ensures { result ≡ (tally_of self.now).market }
    {
        self.market.numbers
    }

    // The positions in the market in force.
    pub(crate) fn held(&self) -> Held<'_, K>
        ensures { (result.positions.now ≡ vec_items self.now.positions) × (result.market ≡ self.now.market) }
    {
        Held {
            positions: self.positions.as_slice(),
            market: self.market,
            variation: self.market.variation(),
        }
    }

    // How many positions are held.
    pub fn len(&self) -> usize
        ensures { result ≡ length (tally_of self.now).positions }
    {
        self.positions.len()
    }

    // The position at an index, from 0.
    pub fn position(&self, index: usize) -> Result<Position<K>, Refusal>
        ensures { PositionTold (tally_of self.now) index result }
    {
        self.positions
            .get(index)
            .copied()
            .ok_or(Refusal::NoPosition)
    }

    // The protected value at a price, in hundredths of a point × contracts.
    pub fn value(&self, price: u32) -> Result<i64, Refusal>
        ensures told { ValueTold K.means (tally_of self.now) price result }
        ensures kept { Kept K.means (tally_of self.now) }
    {
        if price > self.market.numbers.ceiling {
            return Err(Refusal::AboveCeiling);
        }
        Ok(self.held().value(price))
    }

    // The minimum margin in centavos, and the lowest price at which the loss is greatest, if some loss is above zero.
    pub fn minimum(&self) -> (u64, Option<u32>)
        ensures { Margin (loss K.means (variation_of (tally_of self.now).market) (price_unit (tally_of self.now).market) (tally_of self.now).positions) result.0 result.1 }
    {
        self.held().minimum()
    }

    // Scenarios and table apart, as they are refused apart: a struct of both could be made of any two.
    // The required margin in centavos: it also covers the book's loss in every scenario of the table.
    pub fn required(&self, scenarios: usize, table: &[u32]) -> Result<u64, Refusal>
        ensures told { RequiredTold K.means (tally_of self.now) scenarios table.now result }
        ensures kept { Kept K.means (tally_of self.now) }
    {
        if scenarios < 1 || scenarios > 405 {
            return Err(Refusal::Scenarios);
        }
        if table.len() != scenarios * self.positions.len() {
            return Err(Refusal::TableLength);
        }
        if let Some(place) = first_above(100 * self.market.numbers.ceiling, table) {
            return Err(Refusal::ScenarioValue(place));
        }
        let (minimum, _) = self.minimum();
        let stressed = self.held().stressed(scenarios, table);
        Ok(minimum.max(stressed))
    }
}
