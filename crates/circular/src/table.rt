// A portfolio's table: a row for each position, a column for each price, the totals and the lowest of them.

use crate::totals::{lowest_total, total_at};
use kinds::Side;
use portfolios::{Holding, Portfolio, hundredths};
use std::io;

fn print_amount(rt: &HostRuntime, amount: i128) -> io::Result<()> {
    let text = hundredths(rt.alloc(), amount)?;
    print!(rt; "{text:>14}")
}

fn print_row(rt: &HostRuntime, holding: &Holding, prices: &[u32]) -> io::Result<()> {
    let name = holding.name;
    // not the letters of a sheet, which the circular does not know
    let side = match holding.option.side {
        Side::Call => "C",
        Side::Put => "P",
    };
    let strike = hundredths(rt.alloc(), i128::from(holding.option.strike))?;
    let quantity = holding.quantity;
    print!(rt; "{name:<10}{side:<4}{strike:>10}{quantity:>10}")?;
    for price in prices {
        print_amount(rt, holding.pays(*price))?;
    }
    println!(rt; "")
}

pub(crate) fn print(rt: &HostRuntime, portfolio: &Portfolio, prices: &[u32]) -> io::Result<()> {
    let title = portfolio.title;
    println!(rt; "{title}")?;
    print!(rt; "{:<14}{:>10}{:>10}", "Option", "Strike", "Quantity")?;
    for price in prices {
        print_amount(rt, i128::from(*price))?;
    }
    println!(rt; "")?;
    for holding in portfolio.holdings {
        print_row(rt, holding, prices)?;
    }
    print!(rt; "{:<34}", "Total")?;
    for price in prices {
        print_amount(rt, total_at(portfolio, *price))?;
    }
    println!(rt; "")?;
    print!(rt; "{:<34}", "Lowest total")?;
    print_amount(rt, lowest_total(portfolio, prices))?;
    println!(rt; "")
}
