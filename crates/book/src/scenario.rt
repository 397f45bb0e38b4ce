// What the positions held are worth in a scenario.
ghost use Rattle.std.specs.Prelude.{◌≡◌, ℕ, ◌*◌, ◌≤◌, length, slice_index};
ghost use Rattle.book.specs.Markets.{value_unit};
ghost use Rattle.book.specs.Scenarios.{row_value, first_above, scenario_losses, greatest};

use crate::held::Held;
use crate::margin::{centavos, exact_loss};
use crate::times::times;
use kinds::Kind;

// The place of the first value above a limit.
pub(crate) fn first_above(limit: u32, table: &[u32]) -> Option<usize>
    ensures { result ≡ first_above limit table.now }
{
    table.iter().position(|value| *value > limit)
}

impl<K: Kind> Held<'_, K> {
    // Quantity × value, summed over the positions.
    fn row_value(&self, row: &[u32]) -> i64
        requires { length row.now ≡ length self.now.positions.now }
        ensures { result ≡ row_value self.now.positions.now row.now }
    {
        let mut sum: i64 = 0;
        for (position, value) in self.positions.iter().zip(row) {
            sum += times(position.net, *value);
        }
        sum
    }

    // The greatest of the scenarios' losses, rounded up to a centavo: once, since rounding takes longer than a short row.
    pub(crate) fn stressed(&self, scenarios: usize, table: &[u32]) -> u64
        requires values { (k : ℕ) → slice_index table.now k ≤ 100 * self.now.market.numbers.ceiling }
        requires whole { length table.now ≡ scenarios * length self.now.positions.now }
        ensures { result ≡ greatest 0 (scenario_losses (value_unit self.now.market.numbers) self.now.positions.now scenarios table.now) }
    {
        let unit = self.market.value_unit();
        let mut most: i64 = 0;
        let mut rest = table;
        for _ in 0..scenarios {
            let (row, after) = rest.split_at(self.positions.len());
            most = most.max(exact_loss(self.row_value(row), unit));
            rest = after;
        }
        centavos(most)
    }
}
