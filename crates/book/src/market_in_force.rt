// A market in force: five numbers that are a market, so that its variation and its units fit their types.
ghost use Rattle.book.specs.Markets.{IsMarket};

use crate::market::Market;

#[derive(Clone, Copy)]
pub(crate) struct MarketInForce {
    pub(crate) numbers: Market,
    ghost right: { IsMarket numbers },
}
