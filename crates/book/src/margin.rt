// The minimum margin of the positions held.
ghost use Rattle.std.specs.Prelude.{◌≡◌, ◌*◌, ◌≤◌, pos, ◌*ℤ◌, neg_ℤ, unsigned_abs};
ghost use Rattle.book.specs.Losses.{loss};
ghost use Rattle.book.specs.Markets.{price_unit};
ghost use Rattle.book.specs.Prices.{centavos, Margin};

use crate::held::Held;
use kinds::Kind;

// A loss in exact units, rounded up to a centavo; nothing for a gain.
pub(crate) fn centavos(loss: i64) -> u64
    ensures { result ≡ centavos loss }
{
    loss.max(0).unsigned_abs().div_ceil(1_000_000)
}

// The loss in exact units: minus the value, times the units in one. Exact within 64 bits.
pub(crate) fn exact_loss(value: i64, unit: u64) -> i64
    requires { unit ≤ 10000000000 }
    ensures { unsigned_abs value * unit ≤ 5000000000000000000 → result ≡ neg_ℤ value *ℤ pos unit }
{
    0i64.saturating_sub(value.saturating_mul(unit as i64))
}

impl<K: Kind> Held<'_, K> {
    // The minimum margin in centavos, and the price that it is for.
    pub(crate) fn minimum(&self) -> (u64, Option<u32>)
        ensures { Margin (loss K.means self.now.variation (price_unit self.now.market.numbers) self.now.positions.now) result.0 result.1 }
    {
        let found = self.worst();
        let loss = exact_loss(found.gain, self.market.price_unit());
        if loss > 0 {
            (centavos(loss), Some(found.price))
        } else {
            (0, None)
        }
    }
}
