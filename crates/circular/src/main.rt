// The three example portfolios of BM&F circular 134/2006-DG, valued at the prices of its tables 4.5, 4.8 and 4.11.
#![tactic(auto)]

mod table;
mod totals;

use portfolios::{PORTFOLIO_1, PORTFOLIO_2, PORTFOLIO_3};
use std::io;

fn main(rt: HostRuntime) -> io::Result<()> {
    table::print(&rt, &PORTFOLIO_1, &[380_000, 387_693])?;
    println!(rt; "")?;
    table::print(
        &rt,
        &PORTFOLIO_2,
        &[192_307, 200_000, 380_000, 385_000, 387_693, 392_693],
    )?;
    println!(rt; "")?;
    table::print(
        &rt,
        &PORTFOLIO_3,
        &[
            192_307, 200_000, 375_000, 380_000, 385_000, 387_693, 392_693,
        ],
    )
}
