// A run: a list of calls, each with its reply.
ghost use Rattle.book.specs.RunLaws.{RanLawfully};
ghost use Rattle.book.specs.Runs.{Step, Ran};
ghost use Rattle.book.specs.Tallies.{tally_of};

use crate::book::Book;
use crate::call::{Answer, Call, Reply};
use crate::refusal::Refusal;
use kinds::Kind;

impl<K: Kind> Book<K> {
    // A switch on the call: calls are data, which the caller lists and the law over runs names.
    fn step(&mut self, call: &Call<K>) -> Reply
        ensures { Step K.means (tally_of self.old) call.now result (tally_of self.new) }
    {
        match call {
            Call::Trade(contract, quantity) => {
                self.trade(*contract, *quantity)?;
                Ok(Answer::Done)
            }
            Call::Change(market) => {
                self.change(*market)?;
                Ok(Answer::Done)
            }
            Call::Minimum => {
                let (centavos, price) = self.minimum();
                Ok(Answer::Minimum(centavos, price))
            }
            Call::Required(scenarios, table) => {
                Ok(Answer::Required(self.required(*scenarios, table)?))
            }
        }
    }

    // Calls and replies apart: the caller keeps the list of calls, and lends the places for the replies.
    // Makes each call in turn. Too few places for the replies are refused with the number needed, and nothing is called.
    pub fn run(&mut self, calls: &[Call<K>], replies: &mut [Reply]) -> Result<(), Refusal>
        ensures ran { Ran K.means (tally_of self.old) calls.now replies.old replies.new (tally_of self.new) result }
        ensures law { RanLawfully K.means (tally_of self.old) calls.now replies.new (tally_of self.new) result }
    {
        if replies.len() < calls.len() {
            return Err(Refusal::Buffer(calls.len()));
        }
        // by index: zipped with replies.iter_mut() it was tried, and a proof then knows only how many replies there are
        for (i, call) in calls.iter().enumerate() {
            replies[i] = self.step(call);
        }
        Ok(())
    }
}
