// The reader: a cursor over a sheet's bytes that hands out one line after another.
ghost use Rattle.std.specs.Prelude.{◌≡◌, ◌+◌, ◌≤◌, length, if◌then◌else◌, Ok, Err, nat_eq};
ghost use Rattle.sheet.specs.LineSteps.{Begun};
ghost use Rattle.sheet.specs.ReadLines.{ReadLine, head, number, position, number_forms};
ghost use Rattle.sheet.specs.Forms.{head_forms};
ghost use Rattle.sheet.specs.StoredKinds.{position_forms};

use crate::cut::position_of;
use crate::fault::Fault;
use crate::form::{Form, Word};
use crate::line::{Line, PositionLine};
use crate::line_reader::LineReader;
use crate::stored::Stored;
use crate::text::Text;

#[derive(Drop)]
pub struct Reader<'a> {
    pub(crate) sheet: &'a [u8],
    pub(crate) at: usize,
    // lines read so far
    pub(crate) lines: usize,
    ghost inside: { (at ≤ length sheet.now) × (lines ≤ at) },
}

impl<'a> Reader<'a> {
    pub fn new(sheet: &'a [u8]) -> Reader<'a>
        ensures { (result.sheet.now ≡ sheet.now) × (result.at ≡ 0) × (result.lines ≡ 0) }
    {
        Reader {
            sheet,
            at: 0,
            lines: 0,
        }
    }

    // The number of the line that comes next.
    pub fn line(&self) -> usize
        ensures { result ≡ self.now.lines + 1 }
    {
        self.lines + 1
    }

    // The next line, before its first field.
    fn next_line(&self) -> LineReader<'a>
        ensures { Begun self.now.sheet.now self.now.at self.now.lines result }
    {
        let rest = &self.sheet[self.at..];
        let (bytes, next) = match position_of(b'\n', rest) {
            None => (rest, None),
            Some(end) => (&rest[..end], Some(self.at + end + 1)),
        };
        LineReader {
            rest: Some(Text {
                bytes,
                offset: self.at,
            }),
            line: self.lines + 1,
            field: 1,
            next,
        }
    }

    // Each of these says that the sheet is the same: no type of the reader's own can, since another sheet would do as well.

    // A section head: its word and its number.
    pub fn head(&mut self, word: Word) -> Result<Line<'a>, Fault>
        ensures same { self.new.sheet.now ≡ self.old.sheet.now }
        ensures told { ReadLine head (head_forms word) self.old.sheet.now self.old.at self.old.lines self.new.at self.new.lines result }
    {
        let mut line = self.next_line();
        let text = line.field(Form::Head(word))?;
        let number = line.field(word.number_form())?;
        self.at = line.end()?;
        self.lines += 1;
        Ok(Line::Head(text, number))
    }

    pub fn number(&mut self) -> Result<Line<'a>, Fault>
        ensures same { self.new.sheet.now ≡ self.old.sheet.now }
        ensures told { ReadLine number number_forms self.old.sheet.now self.old.at self.old.lines self.new.at self.new.lines result }
    {
        let mut line = self.next_line();
        let number = line.field(Form::Number)?;
        self.at = line.end()?;
        self.lines += 1;
        Ok(Line::Number(number))
    }

    // A position line of the kind K.
    pub fn position<K: Stored>(&mut self) -> Result<Line<'a>, Fault>
        ensures same { self.new.sheet.now ≡ self.old.sheet.now }
        ensures told { ReadLine position (position_forms K.Stored.stored.limiter_form) self.old.sheet.now self.old.at self.old.lines self.new.at self.new.lines result }
    {
        let mut line = self.next_line();
        let side = line.field(Form::Letter)?;
        let strike = line.field(Form::Number)?;
        let limiter = line.optional_field(K::limiter_form())?;
        let quantity = line.field(Form::Quantity)?;
        self.at = line.end()?;
        self.lines += 1;
        Ok(Line::Position(PositionLine {
            side,
            strike,
            limiter,
            quantity,
        }))
    }

    // The end of the sheet: anything after the last line is malformed.
    pub fn end(&self) -> Result<(), Fault>
        ensures { result ≡ (if nat_eq self.now.at (length self.now.sheet.now) then Ok tt else Err (Fault.Field (self.now.lines + 1) 1)) }
    {
        if self.at == self.sheet.len() {
            return Ok(());
        }
        Err(Fault::Field(self.lines + 1, 1))
    }

    // Back to the start, for another walk.
    pub fn restart(&mut self)
        ensures { (self.new.sheet.now ≡ self.old.sheet.now) × (self.new.at ≡ 0) × (self.new.lines ≡ 0) }
    {
        self.at = 0;
        self.lines = 0;
    }
}
