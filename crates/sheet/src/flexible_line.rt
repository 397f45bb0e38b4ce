// Flexible options in a sheet: C or P, strike, limiter or - for none, quantity.
ghost use Rattle.std.specs.Prelude.{◌≡◌};
ghost use Rattle.sheet.specs.FlexibleLines.{flexible_stored, limiter_of};
ghost use Rattle.sheet.specs.FlexibleLaws.{flexible_storable};

use crate::form::Form;
use crate::line::PositionLine;
use crate::line_buffer::LineBuffer;
use crate::listed_line::{read_side, side_and_strike};
use crate::number::short_number;
use crate::stored::Stored;
use kinds::{ContractRefusal, Flexible, Kind};

// The limiter that a field tells, which may be none.
fn read_limiter(bytes: &[u8]) -> Option<Option<u32>>
    ensures { result ≡ limiter_of bytes.now }
{
    match bytes {
        [b'-'] => Some(None),
        _ => short_number(bytes).map(Some),
    }
}

impl Stored for Flexible {
    ghost stored = { flexible_stored };

    ghost storable = { flexible_storable };

    fn limiter_form() -> Option<Form> {
        Some(Form::Limiter)
    }

    fn read(line: &PositionLine) -> Option<Flexible> {
        let field = line.limiter?;
        let side = read_side(line.side.bytes)?;
        let strike = short_number(line.strike.bytes)?;
        let limiter = read_limiter(field.bytes)?;
        Some(Flexible {
            side,
            strike,
            limiter,
        })
    }

    fn refusal(&self) -> Option<ContractRefusal> {
        Flexible::new(self.side, self.strike, self.limiter).err()
    }

    fn write(&self) -> LineBuffer {
        let mut line = side_and_strike(self.side, self.strike);
        line.push(b' ');
        match self.limiter {
            None => line.push(b'-'),
            Some(limiter) => line.push_number(limiter),
        }
        line
    }
}
