// Writing into a line buffer, and from it into a caller's bytes.
ghost use Rattle.std.specs.Prelude.{◌≡◌, ◌+◌, ◌<◌, ◌≤◌, [], ◌∷◌, ◌++◌, length, decimal};
ghost use Rattle.std.specs.Fmt.{signed_decimal};
ghost use Rattle.sheet.specs.LineTexts.{line_text};
ghost use Rattle.sheet.specs.LineBytes.{WrittenTo};

use crate::line_buffer::LineBuffer;
use crate::too_short::TooShort;

impl LineBuffer {
    pub(crate) fn new() -> LineBuffer
        ensures { line_text result ≡ [] }
    {
        LineBuffer {
            bytes: [0; 64],
            len: 0,
        }
    }

    pub fn len(&self) -> usize
        ensures { result ≡ length (line_text self.now) }
    {
        self.len
    }

    pub(crate) fn push(&mut self, byte: u8)
        requires { length (line_text self.old) < 64 }
        ensures { line_text self.new ≡ line_text self.old ++ byte ∷ [] }
    {
        self.bytes[self.len] = byte;
        self.len += 1;
    }

    pub(crate) fn push_text(&mut self, text: &[u8])
        requires { length (line_text self.old) + length text.now ≤ 64 }
        ensures { line_text self.new ≡ line_text self.old ++ text.now }
    {
        let end = self.len + text.len();
        self.bytes[self.len..end].copy_from_slice(text);
        self.len = end;
    }

    // Not by `write!`, whose contract leaves open when it fails: a line with room for the digits always takes them.
    pub(crate) fn push_number(&mut self, n: u32)
        requires { length (line_text self.old) + length (decimal n) ≤ 64 }
        ensures { line_text self.new ≡ line_text self.old ++ decimal n }
    {
        if n >= 10 {
            self.push_number(n / 10);
        }
        self.push(b'0' + (n % 10) as u8);
    }

    pub(crate) fn push_quantity(&mut self, quantity: i32)
        requires { length (line_text self.old) + length (signed_decimal quantity) ≤ 64 }
        ensures { line_text self.new ≡ line_text self.old ++ signed_decimal quantity }
    {
        if quantity < 0 {
            self.push(b'-');
        }
        self.push_number(quantity.unsigned_abs());
    }

    // Writes the line to the front of a buffer and replies its length; too short a buffer stays as it was.
    pub fn write_to(&self, out: &mut [u8]) -> Result<usize, TooShort>
        ensures { WrittenTo (line_text self.now) out.old out.new result }
    {
        let n = self.len;
        if out.len() < n {
            return Err(TooShort { needed: n });
        }
        out[0..n].copy_from_slice(&self.bytes[0..n]);
        Ok(n)
    }
}
