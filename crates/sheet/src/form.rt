// The forms that a field of a line may have.
ghost use Rattle.std.specs.Prelude.{◌≡◌};
ghost use Rattle.sheet.specs.Forms.{word_bytes, head_number, is_form};

use crate::number::{quantity, short_number};

// The words of section heads.
#[derive(Clone, Copy)]
pub enum Word {
    Market,
    Positions,
    Scenarios,
}

impl Word {
    // Bytes and no `&str`: a sheet's bytes may be no text.
    pub fn text(self) -> &'static [u8]
        ensures { result.now ≡ word_bytes self }
    {
        match self {
            Word::Market => b"market",
            Word::Positions => b"positions",
            Word::Scenarios => b"scenarios",
        }
    }

    // The form of the number behind the word.
    pub(crate) fn number_form(self) -> Form
        ensures { result ≡ head_number self }
    {
        match self {
            Word::Market => Form::Five,
            Word::Positions => Form::Number,
            Word::Scenarios => Form::Number,
        }
    }
}

#[derive(Clone, Copy)]
pub enum Form {
    Head(Word),
    // the number 5 of the market's head
    Five,
    Number,
    Quantity,
    // C or P
    Letter,
    // a number, or - for none
    Limiter,
}

impl Form {
    // Whether a field has this form. A switch on names and no closures: which forms a line asks is data, and contracts name it.
    pub fn takes(self, bytes: &[u8]) -> bool
        ensures { result ≡ is_form self bytes.now }
    {
        match self {
            Form::Head(word) => bytes == word.text(),
            Form::Five => bytes == b"5".as_slice(),
            Form::Number => short_number(bytes).is_some(),
            Form::Quantity => quantity(bytes).is_some(),
            Form::Letter => bytes == b"C".as_slice() || bytes == b"P".as_slice(),
            Form::Limiter => bytes == b"-".as_slice() || short_number(bytes).is_some(),
        }
    }
}
