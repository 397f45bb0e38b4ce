// Reserving room and opening a book.
ghost use Rattle.std.specs.Prelude.{◌≡◌, [], IfOk, Some, None, MatchResult};
ghost use Rattle.book.specs.Tallies.{Kept, tally_of, open_refusal};

use crate::book::Book;
use crate::market::Market;
use crate::places::Places;
use crate::refusal::Refusal;
use kinds::Kind;
use std::alloc::{AllocError, Global};

impl<K: Kind> Places<K> {
    // Reserves room for so many positions, at most 128.
    pub fn reserve(heap: Global, count: usize) -> Result<Places<K>, AllocError>
        ensures { IfOk result (λ p. p.count ≡ count) }
    {
        let positions = Vec::with_capacity(heap, count.min(128))?;
        let seen = Vec::with_capacity(heap, count.min(128))?;
        Ok(Places {
            count,
            positions,
            seen,
        })
    }
}

impl<K: Kind> Book<K> {
    // Cause and places are a pair in each start's refusal: a struct for both would have no method.
    // A fresh book holds no position; a refusal hands the places back.
    pub fn open(places: Places<K>, market: Market) -> Result<Book<K>, (Refusal, Places<K>)>
        ensures { MatchResult result (λ b. (open_refusal places.count market ≡ None) × (tally_of b ≡ record { places = places.count; market = market; positions = [] }) × Kept K.means (tally_of b)) (λ e. (open_refusal places.count market ≡ Some e.0) × (e.1 ≡ places)) }
    {
        let market = match market.in_force() {
            Ok(market) => market,
            Err(refusal) => return Err((refusal, places)),
        };
        if places.count < 1 || places.count > 128 {
            return Err((Refusal::Places, places));
        }
        let Places {
            count,
            positions,
            seen,
        } = places;
        Ok(Book {
            places: count,
            market,
            positions,
            seen,
        })
    }
}
