// A kind that can be stored: one that also has a line in a sheet.
ghost use Rattle.std.specs.Prelude.{◌≡◌, ◌≤◌, length};
ghost use Rattle.sheet.specs.StoredKinds.{Storing, Storable, contract_text, text_bytes};
ghost use Rattle.sheet.specs.LineTexts.{line_text};

use crate::form::Form;
use crate::line::PositionLine;
use crate::line_buffer::LineBuffer;
use kinds::{ContractRefusal, Kind};

pub trait Stored: Kind {
    // how contracts are stored
    ghost stored: { Storing Self };

    // The form of the field between strike and quantity, in kinds that have one.
    fn limiter_form() -> Option<Form>
        ensures { result ≡ stored.limiter_form };

    // The contract of a line, as a plain record: its numbers may be out of range.
    fn read(line: &PositionLine) -> Option<Self>
        ensures { result ≡ stored.read (contract_text line.now) };

    // Why the contract is not made by its numbers alone. An Option, since nothing fails here: it is asked which cause a record has.
    fn refusal(&self) -> Option<ContractRefusal>
        ensures { result ≡ stored.refusal self.now };

    // The fields before the quantity: short enough that the whole line has at most 64 bytes.
    fn write(&self) -> LineBuffer
        ensures text { line_text result ≡ text_bytes (stored.written self.now) }
        ensures short { length (line_text result) ≤ 51 };

    // what is written reads back, what was read is written back, and a line is short
    ghost storable: { Storable Self.Kind.means stored };
}
