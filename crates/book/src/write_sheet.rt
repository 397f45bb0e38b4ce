// Writing a book as a sheet.
ghost use Rattle.std.specs.Prelude.{◌≡◌, ◌+◌, ◌≤◌, ◌++◌, length, take, drop, map};
ghost use Rattle.sheet.specs.LineTexts.{line_text};
ghost use Rattle.book.specs.SheetLaws.{Readable};
ghost use Rattle.book.specs.SheetTexts.{position_line, sheet_lines, sheet_of, SheetWritten};
ghost use Rattle.book.specs.Tallies.{tally_of};

use crate::book::Book;
use crate::position::Position;
use crate::refusal::Refusal;
use sheet::{LineBuffer, Stored, Word, head_line, number_line, position_line};

// Puts a line into the buffer at `at`, and replies where the next one begins.
fn put_line(line: &LineBuffer, out: &mut [u8], at: usize) -> usize
    requires { at + length (line_text line.now) ≤ length out.old }
    ensures end { result ≡ at + length (line_text line.now) }
    ensures put { out.new ≡ take at out.old ++ (line_text line.now ++ drop (at + length (line_text line.now)) out.old) }
{
    at + line.write_to(&mut out[at..]).unwrap()
}

impl<K: Stored> Position<K> {
    // The line of a sheet that tells the position.
    fn line(&self) -> LineBuffer
        ensures { line_text result ≡ position_line K.Stored.stored self.now }
    {
        position_line(&self.contract, self.net)
    }
}

impl<K: Stored> Book<K> {
    // The lines ahead of the positions.
    fn head_lines(&self) -> [LineBuffer; 7]
        ensures { map line_text result ≡ take 7 (sheet_lines K.Stored.stored (tally_of self.now)) }
    {
        [
            head_line(Word::Market, 5),
            number_line(self.market.numbers.ceiling),
            number_line(self.market.numbers.reference),
            number_line(self.market.numbers.factor),
            number_line(self.market.numbers.size),
            number_line(self.market.numbers.rate),
            head_line(Word::Positions, self.positions.len() as u32),
        ]
    }

    // How many bytes the sheet has.
    fn sheet_len(&self) -> usize
        ensures { result ≡ length (sheet_of K.Stored.stored (tally_of self.now)) }
    {
        let lines = self.head_lines();
        let heads = lines.iter().map(|line| line.len());
        let positions = self.positions.iter().map(|position| position.line().len());
        heads.chain(positions).sum()
    }

    // Writes the book as a sheet to the front of a buffer and replies its length.
    pub fn write(&self, out: &mut [u8]) -> Result<usize, Refusal>
        ensures told { SheetWritten (sheet_of K.Stored.stored (tally_of self.now)) out.old out.new result }
        ensures readable { Readable K.Kind.means K.Stored.stored (tally_of self.now) }
    {
        let needed = self.sheet_len();
        if out.len() < needed {
            return Err(Refusal::Buffer(needed));
        }
        let mut at = 0;
        for line in &self.head_lines() {
            at = put_line(line, out, at);
        }
        for position in &self.positions {
            at = put_line(&position.line(), out, at);
        }
        Ok(needed)
    }
}
