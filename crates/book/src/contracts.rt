// How many contracts are held in all, without sign.
ghost use Rattle.std.specs.Prelude.{◌≡◌, ◌<◌, length, slice_index_or};
ghost use Rattle.book.specs.declared.position.Position.{Position};
ghost use Rattle.book.specs.Losses.{gross};
ghost use Rattle.book.specs.Trades.{traded_at};

use crate::held::Held;
use crate::quantity::Quantity;
use kinds::Kind;

impl<K: Kind> Held<'_, K> {
    pub(crate) fn contracts(&self) -> u32
        ensures { result ≡ gross self.now.positions.now }
    {
        let mut sum: u32 = 0;
        for position in self.positions {
            sum += position.net.unsigned_abs();
        }
        sum
    }

    // The contracts in all after a trade in the position at this index.
    pub(crate) fn contracts_after(&self, index: usize, quantity: Quantity) -> u32
        requires { index < length self.now.positions.now }
        ensures { (d : Position K) → result ≡ gross (traded_at self.now.positions.now index (slice_index_or self.now.positions.now index d) quantity.contracts) }
    {
        let held = self.positions[index].net;
        self.contracts() - held.unsigned_abs() + (held + quantity.contracts).unsigned_abs()
    }
}
