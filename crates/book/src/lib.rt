// Books of options: opening, sheets, trades, market changes, both margins, and runs of calls.
#![tactic(auto)]

mod ask;
mod book;
mod call;
mod change;
mod check_sheet;
mod contracts;
mod fill_sheet;
mod find;
mod found;
mod held;
mod laws;
mod margin;
mod market;
mod market_in_force;
mod market_rules;
mod open;
mod places;
mod position;
mod quantity;
mod read_sheet;
mod refusal;
mod run;
mod scenario;
mod start;
mod times;
mod trade;
mod unfit;
mod value;
mod worst;
mod write_sheet;

pub use book::Book;
pub use call::{Answer, Call, Reply};
pub use laws::{examples_hold, formula_laws, margin_laws};
pub use market::Market;
pub use places::Places;
pub use position::Position;
pub use refusal::Refusal;
pub use start::Start;
