// A position of a portfolio, and what it pays: dollar options of size 50 under the variation 76.93.
ghost use Rattle.std.specs.Prelude.{◌≡◌, ◌^◌, ◌≤◌, unsigned_abs};
ghost use Rattle.portfolios.specs.Payments.{counted, worth};

use kinds::{Kind, Listed};

// reference 2,564.50 × factor 3 %, cut to hundredths of a point
const VARIATION: u32 = 7_693;

const SIZE: i128 = 50;

// An option of a portfolio, with its net quantity: bought above zero, sold below.
#[derive(Clone, Copy)]
pub struct Holding<'a> {
    pub name: &'a str,
    pub option: Listed,
    pub quantity: i32,
}

impl Holding<'_> {
    // As a book counts it, on which this library does not stand.
    // What one contract pays at a price, in hundredths of a point: a sold one under the variation.
    fn counted(&self, price: u32) -> u32
        ensures { result ≡ counted self.now.option self.now.quantity price }
    {
        if self.quantity < 0 {
            self.option.payment_under(VARIATION, price)
        } else {
            self.option.payment(price)
        }
    }

    // What the position pays at a price, in centavos.
    pub fn pays(&self, price: u32) -> i128
        ensures is { result ≡ worth self.now.option self.now.quantity price }
        ensures bound { unsigned_abs result ≤ 2 ^ 69 }
    {
        i128::from(self.quantity) * i128::from(self.counted(price)) * SIZE
    }
}
