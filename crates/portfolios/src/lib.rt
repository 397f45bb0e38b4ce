// The example portfolios of BM&F circular 134/2006-DG: their rows, what a position pays, and amounts as text.
#![tactic(auto)]

mod amount;
mod examples;
mod holding;

pub use amount::hundredths;
pub use examples::{PORTFOLIO_1, PORTFOLIO_2, PORTFOLIO_3, Portfolio};
pub use holding::Holding;

#[cfg(test)]
mod tests;
