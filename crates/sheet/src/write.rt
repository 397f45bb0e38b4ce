// Writing the lines of a sheet.
ghost use Rattle.std.specs.Prelude.{◌≡◌};
ghost use Rattle.sheet.specs.LineTexts.{line_text};
ghost use Rattle.sheet.specs.LineBytes.{number_bytes, head_bytes, WrittenTo};
ghost use Rattle.sheet.specs.StoredKinds.{position_bytes};

use crate::form::Word;
use crate::line_buffer::LineBuffer;
use crate::stored::Stored;
use crate::too_short::TooShort;

#[tactic(auto, using(crate::proofs::Lengths::number_length))]
pub fn number_line(n: u32) -> LineBuffer
    ensures { line_text result ≡ number_bytes n }
{
    let mut line = LineBuffer::new();
    line.push_number(n);
    line.push(b'\n');
    line
}

#[tactic(auto, using(crate::proofs::Lengths::number_length, crate::proofs::Lengths::word_length))]
pub fn head_line(word: Word, number: u32) -> LineBuffer
    ensures { line_text result ≡ head_bytes word number }
{
    let mut line = LineBuffer::new();
    line.push_text(word.text());
    line.push(b' ');
    line.push_number(number);
    line.push(b'\n');
    line
}

pub fn position_line<K: Stored>(contract: &K, quantity: i32) -> LineBuffer
    ensures { line_text result ≡ position_bytes (K.Stored.stored.written contract.now) quantity }
{
    let mut line = contract.write();
    line.push(b' ');
    line.push_quantity(quantity);
    line.push(b'\n');
    line
}

// Each of these writes one line to the front of a buffer and replies its length; too short a buffer is refused with the bytes needed.

pub fn write_number(out: &mut [u8], n: u32) -> Result<usize, TooShort>
    ensures { WrittenTo (number_bytes n) out.old out.new result }
{
    number_line(n).write_to(out)
}

pub fn write_head(out: &mut [u8], word: Word, n: u32) -> Result<usize, TooShort>
    ensures { WrittenTo (head_bytes word n) out.old out.new result }
{
    head_line(word, n).write_to(out)
}

pub fn write_position<K: Stored>(
    out: &mut [u8],
    contract: &K,
    quantity: i32,
) -> Result<usize, TooShort>
    ensures { WrittenTo (position_bytes (K.Stored.stored.written contract.now) quantity) out.old out.new result }
{
    position_line(contract, quantity).write_to(out)
}
