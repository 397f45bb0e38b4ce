// The protected value of the positions held at a price.
ghost use Rattle.std.specs.Prelude.{◌≡◌, ◌*◌, ◌≤◌, unsigned_abs};
ghost use Rattle.kinds.specs.Kinds.{WhereFits};
ghost use Rattle.book.specs.Losses.{paid, worth, value};

use crate::held::Held;
use crate::position::Position;
use crate::times::times;
use kinds::Kind;

impl<K: Kind> Position<K> {
    // What one of its contracts pays: a sold one under the variation.
    fn paid(&self, variation: u32, price: u32) -> u32
        ensures { WhereFits K.means self.now.contract variation price (result ≡ paid K.means variation self.now.contract self.now.net price) }
    {
        if self.net < 0 {
            self.contract.payment_under(variation, price)
        } else {
            self.contract.payment(price)
        }
    }

    // What it adds to the protected value.
    fn worth(&self, variation: u32, price: u32) -> i64
        requires { unsigned_abs self.now.net ≤ 10000 }
        ensures exact { WhereFits K.means self.now.contract variation price (result ≡ worth K.means variation self.now price) }
        ensures bound { unsigned_abs result ≤ unsigned_abs self.now.net * 4294967295 }
    {
        times(self.net, self.paid(variation, price))
    }
}

impl<K: Kind> Held<'_, K> {
    pub(crate) fn value(&self, price: u32) -> i64
        requires { price ≤ self.now.market.numbers.ceiling }
        ensures { result ≡ value K.means self.now.variation self.now.positions.now price }
    {
        let mut sum: i64 = 0;
        for position in self.positions {
            sum += position.worth(self.variation, price);
        }
        sum
    }
}
