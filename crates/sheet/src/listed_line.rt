// Listed options in a sheet: C or P, strike, quantity.
ghost use Rattle.std.specs.Prelude.{◌≡◌, ◌≤◌, ◌∷◌, length, decimal};
ghost use Rattle.sheet.specs.LineTexts.{line_text};
ghost use Rattle.sheet.specs.ListedLines.{listed_stored, letter, side_of};
ghost use Rattle.sheet.specs.ListedLaws.{listed_storable};

use crate::form::Form;
use crate::line::PositionLine;
use crate::line_buffer::LineBuffer;
use crate::number::short_number;
use crate::stored::Stored;
use kinds::{ContractRefusal, Kind, Listed, Side};

// The letter of a side. No `From`: the side and the byte are both of other crates, and letters belong to sheets.
pub(crate) fn letter_of(side: Side) -> u8
    ensures { result ≡ letter side }
{
    match side {
        Side::Call => b'C',
        Side::Put => b'P',
    }
}

// The side that a letter tells. No `TryFrom`, for the same reason.
pub(crate) fn read_side(bytes: &[u8]) -> Option<Side>
    ensures { result ≡ side_of bytes.now }
{
    match bytes {
        [b'C'] => Some(Side::Call),
        [b'P'] => Some(Side::Put),
        _ => None,
    }
}

// The fields that every line begins with.
#[tactic(auto, using(crate::proofs::Lengths::number_length))]
pub(crate) fn side_and_strike(side: Side, strike: u32) -> LineBuffer
    ensures text { line_text result ≡ letter side ∷ 32 ∷ decimal strike }
    ensures short { length (line_text result) ≤ 12 }
{
    let mut line = LineBuffer::new();
    line.push(letter_of(side));
    line.push(b' ');
    line.push_number(strike);
    line
}

impl Stored for Listed {
    ghost stored = { listed_stored };

    ghost storable = { listed_storable };

    fn limiter_form() -> Option<Form> {
        None
    }

    fn read(line: &PositionLine) -> Option<Listed> {
        if line.limiter.is_some() {
            return None;
        }
        let side = read_side(line.side.bytes)?;
        let strike = short_number(line.strike.bytes)?;
        Some(Listed { side, strike })
    }

    fn refusal(&self) -> Option<ContractRefusal> {
        Listed::new(self.side, self.strike).err()
    }

    fn write(&self) -> LineBuffer {
        side_and_strike(self.side, self.strike)
    }
}
