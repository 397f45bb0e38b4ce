// Reading the fields of a line, each with the form that is asked of it.
ghost use Rattle.std.specs.Prelude.{◌≡◌};
ghost use Rattle.sheet.specs.LineSteps.{FieldRead, OptionalRead, line_end};

use crate::fault::Fault;
use crate::field::Field;
use crate::form::Form;
use crate::line_reader::LineReader;

impl<'a> LineReader<'a> {
    // The next field; one that is missing or of another form is told.
    pub(crate) fn field(&mut self, form: Form) -> Result<Field<'a>, Fault>
        ensures { FieldRead form self.old self.new result }
    {
        let malformed = Fault::Field(self.line, self.field);
        let Some(text) = self.rest else {
            return Err(malformed);
        };
        let (bytes, rest) = text.cut();
        if !form.takes(bytes) {
            return Err(malformed);
        }
        self.rest = rest;
        self.field += 1;
        Ok(Field {
            bytes,
            line: self.line,
            offset: text.offset,
        })
    }

    // The next field, in lines that have it.
    pub(crate) fn optional_field(&mut self, form: Option<Form>) -> Result<Option<Field<'a>>, Fault>
        ensures { OptionalRead form self.old self.new result }
    {
        match form {
            None => Ok(None),
            Some(form) => Ok(Some(self.field(form)?)),
        }
    }

    // The offset behind the line; a field too many and a missing line feed are told.
    pub(crate) fn end(self) -> Result<usize, Fault>
        ensures { result ≡ line_end self.entry }
    {
        match (self.rest, self.next) {
            (None, Some(next)) => Ok(next),
            _ => Err(Fault::Field(self.line, self.field)),
        }
    }
}
