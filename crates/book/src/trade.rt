// A trade: it adds to the position held in its contract, or becomes a new one after the last.
ghost use Rattle.std.specs.Prelude.{◌≡◌, ◌+◌, ◌<◌, ◌≤◌, [], ◌∷◌, ◌++◌, length, vec_len, slice_index_or, unsigned_abs};
ghost use Rattle.book.specs.Losses.{gross};
ghost use Rattle.book.specs.Tallies.{Kept, tally_of, holding, ends_refusal, trade_refusal, Told};
ghost use Rattle.book.specs.Trades.{traded, traded_at};

use crate::book::Book;
use crate::find::find;
use crate::position::Position;
use crate::quantity::Quantity;
use crate::refusal::Refusal;
use kinds::Kind;

impl<K: Kind> Book<K> {
    // What is asked as `kept` speaks of the positions after the trade, another list in each function; an index is of the positions at the call, which the trade changes.

    // Adds to the net quantity of the position at this index; at zero the position goes.
    fn add(&mut self, index: usize, quantity: Quantity)
        requires within { index < length self.old.positions.items }
        requires few { (d : Position K) → gross (traded_at self.old.positions.items index (slice_index_or self.old.positions.items index d) quantity.contracts) ≤ 10000 }
        requires kept { (d : Position K) → Kept K.means (holding (tally_of self.old) (traded_at self.old.positions.items index (slice_index_or self.old.positions.items index d) quantity.contracts)) }
        ensures { (d : Position K) → tally_of self.new ≡ record { places = self.old.places; market = self.old.market.numbers; positions = traded_at self.old.positions.items index (slice_index_or self.old.positions.items index d) quantity.contracts } }
    {
        let net = self.positions[index].net + quantity.contracts;
        if net == 0 {
            let _ = self.positions.remove(index);
        } else {
            self.positions[index].net = net;
        }
    }

    // A new position after the last.
    pub(crate) fn append(&mut self, contract: K, quantity: i32)
        requires room { vec_len self.old.positions < self.old.places }
        requires some { 1 ≤ unsigned_abs quantity }
        requires few { gross self.old.positions.items + unsigned_abs quantity ≤ 10000 }
        requires kept { Kept K.means (holding (tally_of self.old) (self.old.positions.items ++ record { contract = contract; net = quantity } ∷ [])) }
        ensures { tally_of self.new ≡ holding (tally_of self.old) (self.old.positions.items ++ record { contract = contract; net = quantity } ∷ []) }
    {
        self.positions.push_reserved(Position {
            contract,
            net: quantity,
        });
    }

    // A trade in the contract that is held at this index.
    fn trade_held(&mut self, index: usize, quantity: Quantity) -> Result<(), Refusal>
        requires within { index < length self.old.positions.items }
        requires kept { (d : Position K) → Kept K.means (holding (tally_of self.old) (traded_at self.old.positions.items index (slice_index_or self.old.positions.items index d) quantity.contracts)) }
        ensures { (d : Position K) → Told (ends_refusal (tally_of self.old) (traded_at self.old.positions.items index (slice_index_or self.old.positions.items index d) quantity.contracts)) (tally_of self.old) (holding (tally_of self.old) (traded_at self.old.positions.items index (slice_index_or self.old.positions.items index d) quantity.contracts)) (tally_of self.new) result }
    {
        if self.held().contracts_after(index, quantity) > 10_000 {
            return Err(Refusal::Contracts);
        }
        self.add(index, quantity);
        Ok(())
    }

    // A trade in a contract that is not held.
    fn trade_new(&mut self, contract: K, quantity: Quantity) -> Result<(), Refusal>
        requires kept { Kept K.means (holding (tally_of self.old) (self.old.positions.items ++ record { contract = contract; net = quantity.contracts } ∷ [])) }
        ensures { Told (ends_refusal (tally_of self.old) (self.old.positions.items ++ record { contract = contract; net = quantity.contracts } ∷ [])) (tally_of self.old) (holding (tally_of self.old) (self.old.positions.items ++ record { contract = contract; net = quantity.contracts } ∷ [])) (tally_of self.new) result }
    {
        if self.held().contracts() + quantity.contracts.unsigned_abs() > 10_000 {
            return Err(Refusal::Contracts);
        }
        if self.positions.len() >= self.places {
            return Err(Refusal::AllPlacesTaken);
        }
        self.append(contract, quantity.contracts);
        Ok(())
    }

    // A trade of so many contracts: a positive quantity buys, a negative one sells.
    pub fn trade(&mut self, contract: K, quantity: i32) -> Result<(), Refusal>
        ensures { Told (trade_refusal K.means (tally_of self.old) contract quantity) (tally_of self.old) (holding (tally_of self.old) (traded K.means contract quantity self.old.positions.items)) (tally_of self.new) result }
    {
        let quantity = Quantity::new(quantity)?;
        if !self.market.admits(&contract) {
            return Err(Refusal::DoesNotFit);
        }
        match find(self.positions.as_slice(), &contract) {
            Some(index) => self.trade_held(index, quantity),
            None => self.trade_new(contract, quantity),
        }
    }
}
