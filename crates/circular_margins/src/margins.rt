// Both margins of a portfolio: what a book of its trades replies, beside what the circular prints.
ghost use Rattle.std.specs.Prelude.{◌≡◌, IfOk};
ghost use Rattle.book.specs.Tallies.{tally_of};
ghost use Rattle.circular_margins.specs.Replies.{portfolio, Right};

use book::{Book, Market, Places, Refusal};
use kinds::Listed;
use portfolios::{Holding, Portfolio, hundredths};
use std::io;

// The same five numbers as in `speed`, which may choose others: each program's edit turns its own.
// reference 2,564.50, factor 3 %, size 50, rate one to one; the ceiling 10,000.00 is ours, above all prices of the tables
const MARKET: Market = Market {
    ceiling: 1_000_000,
    reference: 256_450,
    factor: 300,
    size: 50,
    rate: 10_000,
};

// Both margins in centavos, and the price that the minimum margin is for.
#[derive(Clone, Copy)]
pub struct Margins {
    pub minimum: u64,
    pub price: Option<u32>,
    pub required: u64,
}

// A book with the trades of a portfolio, made in the order of its rows.
fn opened(places: Places<Listed>, holdings: &[Holding]) -> Result<Book<Listed>, Refusal>
    ensures { IfOk result (λ b. tally_of b ≡ portfolio places.count holdings.now) }
{
    let mut book = Book::open(places, MARKET).map_err(|(refusal, _)| refusal)?;
    for holding in holdings {
        book.trade(holding.option, holding.quantity)?;
    }
    Ok(book)
}

// What a book with these trades replies, with the portfolio's worst scenario as the table of values.
fn asked(places: Places<Listed>, holdings: &[Holding], worst: &[u32]) -> Result<Margins, Refusal>
    ensures { IfOk result (λ m. Right (portfolio places.count holdings.now) worst.now m) }
{
    let book = opened(places, holdings)?;
    let (minimum, price) = book.minimum();
    let required = book.required(1, worst)?;
    Ok(Margins {
        minimum,
        price,
        required,
    })
}

fn print_price(rt: &HostRuntime, price: Option<u32>) -> io::Result<()> {
    match price {
        Some(price) => {
            let text = hundredths(rt.alloc(), i128::from(price))?;
            print!(rt; " at {text}")
        }
        None => Ok(()),
    }
}

fn print_replies(rt: &HostRuntime, ours: &Margins, circular: &Margins) -> io::Result<()> {
    let minimum = hundredths(rt.alloc(), i128::from(ours.minimum))?;
    print!(rt; "{:<34}{minimum:>14}", "Minimum margin")?;
    print_price(rt, ours.price)?;
    let minimum = hundredths(rt.alloc(), i128::from(circular.minimum))?;
    print!(rt; " (circular: {minimum}")?;
    print_price(rt, circular.price)?;
    println!(rt; ")")?;
    let required = hundredths(rt.alloc(), i128::from(ours.required))?;
    let printed = hundredths(rt.alloc(), i128::from(circular.required))?;
    println!(rt;
        "{:<34}{required:>14} (circular: {printed})",
        "Required margin"
    )
}

// A refusal is printed by its number.
pub(crate) fn print(
    rt: &HostRuntime,
    portfolio: &Portfolio,
    worst: &[u32],
    circular: &Margins,
) -> io::Result<()> {
    let title = portfolio.title;
    println!(rt; "{title}")?;
    let holdings = portfolio.holdings;
    let places = Places::reserve(rt.alloc(), holdings.len())?;
    match asked(places, holdings, worst) {
        Ok(ours) => print_replies(rt, &ours, circular),
        Err(refusal) => {
            let number = refusal.number();
            println!(rt; "refused {number}")
        }
    }
}
