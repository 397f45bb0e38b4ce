// A market change: it replaces all five numbers.
ghost use Rattle.book.specs.Tallies.{tally_of, change_refusal, in_market, Told};

use crate::book::Book;
use crate::market::Market;
use crate::refusal::Refusal;
use crate::unfit::first_unfit;
use kinds::Kind;

impl<K: Kind> Book<K> {
    pub fn change(&mut self, market: Market) -> Result<(), Refusal>
        ensures { Told (change_refusal K.means (tally_of self.old) market) (tally_of self.old) (in_market (tally_of self.old) market) (tally_of self.new) result }
    {
        let market = market.in_force()?;
        if let Some(index) = first_unfit(self.positions.as_slice(), &market) {
            return Err(Refusal::HeldDoesNotFit(index));
        }
        self.market = market;
        Ok(())
    }
}
