// The book that is measured: calls above the reference price and puts below it in turn, two sold and two bought.
ghost use Rattle.std.specs.Prelude.{◌≡◌, ◌<◌, ◌≤◌, true, IfOk};
ghost use Rattle.kinds.specs.ListedOptions.{listed};
ghost use Rattle.book.specs.Tallies.{tally_of};
ghost use Rattle.speed.specs.Examples.{market, option_at, quantity_at, example};

use book::{Book, Market, Places, Refusal};
use kinds::{Listed, Side};

// The same five numbers as in `circular_margins`, which may choose others: each program's edit turns its own.
const MARKET: Market = Market {
    ceiling: 1_000_000,
    reference: 256_450,
    factor: 300,
    size: 50,
    rate: 10_000,
};

// The option of the position i. No two are the same, and all fit the market, whose variation is 7,693.
fn option(i: usize) -> Listed
    requires { i < 128 }
    ensures is { result ≡ option_at i }
    ensures fits { listed.fits result 7693 1000000 ≡ true }
{
    if i % 2 == 0 {
        Listed {
            side: Side::Call,
            strike: 260_000 + 5_000 * i as u32,
        }
    } else {
        Listed {
            side: Side::Put,
            strike: 250_000 - 1_900 * i as u32,
        }
    }
}

// The quantity of the position i: 1 to 50 contracts.
fn quantity(i: usize) -> i32
    requires { i < 128 }
    ensures { result ≡ quantity_at i }
{
    let size = 1 + (i % 50) as i32;
    if i % 4 < 2 { -size } else { size }
}

// A book with so many positions.
pub(crate) fn opened(places: Places<Listed>, positions: usize) -> Result<Book<Listed>, Refusal>
    requires { positions ≤ 128 }
    ensures { IfOk result (λ b. ((tally_of b).positions ≡ example positions) × ((tally_of b).market ≡ market)) }
{
    let mut book = Book::open(places, MARKET).map_err(|(refusal, _)| refusal)?;
    // by number: i says which option and how many
    for i in 0..positions {
        book.trade(option(i), quantity(i))?;
    }
    Ok(book)
}
