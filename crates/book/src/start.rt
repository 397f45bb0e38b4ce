// Starting a book, fresh or from a sheet, and running a list of calls.
ghost use Rattle.std.specs.Prelude.{◌≡◌, Some, None, MatchResult, Ok, Err};
ghost use Rattle.book.specs.SheetReading.{tally_told};
ghost use Rattle.book.specs.Starts.{fresh, sheet_refusal, start_refusal, start_tally, Started};
ghost use Rattle.book.specs.Tallies.{Valid, tally_of, open_refusal};

use crate::book::Book;
use crate::call::{Call, Reply};
use crate::check_sheet::check_length;
use crate::market::Market;
use crate::places::Places;
use crate::refusal::Refusal;
use kinds::Kind;
use sheet::Stored;

#[derive(Clone, Copy)]
pub enum Start<'a> {
    Fresh(Market),
    // the bytes of a sheet
    Sheet(&'a [u8]),
}

impl<K: Kind> Book<K> {
    // The places of a book, emptied.
    fn into_places(self) -> Places<K>
        ensures { result.count ≡ self.places }
    {
        let Book {
            places,
            market: _,
            mut positions,
            seen,
        } = self;
        positions.clear();
        Places {
            count: places,
            positions,
            seen,
        }
    }

    // The book after a call on it, or its places where the call was turned away.
    fn or_places(self, done: Result<(), Refusal>) -> Result<Book<K>, (Refusal, Places<K>)>
        ensures { MatchResult result (λ b. (done ≡ Ok tt) × (b ≡ self)) (λ e. (done ≡ Err e.0) × (e.1.count ≡ self.places)) }
    {
        match done {
            Ok(()) => Ok(self),
            Err(refusal) => Err((refusal, self.into_places())),
        }
    }

    // Makes each call in turn. Where there are too few places for the replies the book's places are handed back.
    fn then_run(
        mut self,
        calls: &[Call<K>],
        replies: &mut [Reply],
    ) -> Result<Book<K>, (Refusal, Places<K>)>
        ensures { Started K.means self.places None (tally_of self) calls.now replies.old replies.new result }
    {
        let done = self.run(calls, replies);
        self.or_places(done)
    }

    // Opens a fresh book and makes each call in turn.
    pub fn open_and_run(
        places: Places<K>,
        market: Market,
        calls: &[Call<K>],
        replies: &mut [Reply],
    ) -> Result<Book<K>, (Refusal, Places<K>)>
        ensures { Started K.means places.count (open_refusal places.count market) (fresh places.count market) calls.now replies.old replies.new result }
    {
        Book::open(places, market)?.then_run(calls, replies)
    }
}

impl<K: Stored> Book<K> {
    // A new book with the market and the positions of a sheet.
    pub fn from_sheet(places: Places<K>, sheet: &[u8]) -> Result<Book<K>, (Refusal, Places<K>)>
        ensures { MatchResult result (λ b. (sheet_refusal K.Kind.means K.Stored.stored places.count sheet.now ≡ None) × (tally_of b ≡ tally_told K.Stored.stored places.count sheet.now) × Valid K.Kind.means (tally_of b)) (λ e. (sheet_refusal K.Kind.means K.Stored.stored places.count sheet.now ≡ Some e.0) × (e.1.count ≡ places.count)) }
    {
        if let Err(fault) = check_length(sheet) {
            return Err((fault.into(), places));
        }
        let market = Market {
            ceiling: 1,
            reference: 1,
            factor: 0,
            size: 1,
            rate: 1,
        };
        let mut book = Book::open(places, market)?;
        let done = book.read(sheet);
        book.or_places(done)
    }

    // Starts a book, fresh or from a sheet, and makes each call in turn.
    pub fn start(
        places: Places<K>,
        start: Start,
        calls: &[Call<K>],
        replies: &mut [Reply],
    ) -> Result<Book<K>, (Refusal, Places<K>)>
        ensures { Started K.Kind.means places.count (start_refusal K.Kind.means K.Stored.stored places.count start.entry) (start_tally K.Stored.stored places.count start.entry) calls.now replies.old replies.new result }
    {
        // a switch: a start is data, as a call is
        match start {
            Start::Fresh(market) => Book::open_and_run(places, market, calls, replies),
            Start::Sheet(sheet) => Book::from_sheet(places, sheet)?.then_run(calls, replies),
        }
    }
}
