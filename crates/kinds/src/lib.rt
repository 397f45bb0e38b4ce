// The kinds of contract that a book can hold: what a book may ask of a contract, and the listed and the flexible option.
#![tactic(auto)]

mod contract_refusal;
mod corners;
mod flexible;
mod kind;
mod listed;
mod side;
mod strike;

pub use contract_refusal::ContractRefusal;
pub use corners::Corners;
pub use flexible::Flexible;
pub use kind::Kind;
pub use listed::Listed;
pub use side::Side;

#[cfg(test)]
mod tests;
