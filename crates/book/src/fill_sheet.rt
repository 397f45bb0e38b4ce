// Reading a sheet into a book: checked to its end, and then filled in.
ghost use Rattle.std.specs.Prelude.{◌≡◌, ◌+◌, ◌≤◌, [], None};
ghost use Rattle.book.specs.SheetLaws.{Accepted};
ghost use Rattle.book.specs.SheetReading.{SheetRead, unread, positions_fault, positions_told, lines_fault, tally_told};
ghost use Rattle.book.specs.Tallies.{tally_of};

use crate::book::Book;
use crate::check_sheet::{check_length, check_lines};
use crate::market_in_force::MarketInForce;
use crate::read_sheet::{read_count, read_market, read_position};
use crate::refusal::Refusal;
use sheet::{Reader, Stored};

impl<K: Stored> Book<K> {
    // Takes in a market and so many positions, whose lines were checked.
    fn fill_positions(&mut self, reader: &mut Reader, market: MarketInForce, count: usize)
        requires room { count ≤ self.old.places }
        requires checked { positions_fault K.Kind.means K.Stored.stored market.numbers count (reader.old.lines + 1) [] (unread reader.old) ≡ None }
        ensures { tally_of self.new ≡ record { places = self.old.places; market = market.numbers; positions = positions_told K.Stored.stored count (unread reader.old) } }
    {
        self.positions.clear();
        self.market = market;
        for _ in 0..count {
            let position = read_position::<K>(reader).unwrap();
            self.append(position.contract, position.net);
        }
    }

    // Takes in a sheet that was checked.
    fn fill(&mut self, reader: &mut Reader)
        requires start { reader.old.lines ≡ 0 }
        requires checked { lines_fault K.Kind.means K.Stored.stored self.old.places (unread reader.old) ≡ None }
        ensures { tally_of self.new ≡ tally_told K.Stored.stored self.old.places (unread reader.old) }
    {
        let market = read_market(reader).unwrap();
        let count = read_count(reader, self.places).unwrap();
        self.fill_positions(reader, market, count as usize);
    }

    // Replaces market and positions by those of a sheet; a sheet with a fault changes nothing.
    pub fn read(&mut self, sheet: &[u8]) -> Result<(), Refusal>
        ensures told { SheetRead K.Kind.means K.Stored.stored sheet.now (tally_of self.old) (tally_of self.new) result }
        ensures exact { Accepted K.Kind.means K.Stored.stored sheet.now (tally_of self.old) (tally_of self.new) result }
    {
        check_length(sheet)?;
        let mut reader = Reader::new(sheet);
        check_lines(&mut reader, self.places, &mut self.seen)?;
        reader.restart();
        self.fill(&mut reader);
        Ok(())
    }
}
