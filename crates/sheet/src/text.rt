// A line of a sheet, or what is left of one.
ghost use Rattle.std.specs.Prelude.{◌≡◌, ◌+◌, ◌^◌, ◌<◌, length, IfSome};
ghost use Rattle.std.specs.Option.{option_map};
ghost use Rattle.sheet.specs.Cuts.{before, after};

use crate::cut::position_of;

#[derive(Clone, Copy)]
pub(crate) struct Text<'a> {
    pub(crate) bytes: &'a [u8],
    pub(crate) offset: usize,
    // it stands within the sheet, so that each offset in it fits, and the one behind it
    ghost short: { offset + length bytes.now < 2 ^ 63 },
}

impl<'a> Text<'a> {
    // The bytes before the first space, and what is left behind that space, if there is one.
    pub(crate) fn cut(self) -> (&'a [u8], Option<Text<'a>>)
        ensures first { result.0.now ≡ before 32 self.entry.bytes.now }
        ensures rest { option_map (λ t. t.bytes.now) result.1 ≡ after 32 self.entry.bytes.now }
        ensures place { IfSome result.1 (λ t. t.offset ≡ self.entry.offset + length (before 32 self.entry.bytes.now) + 1) }
    {
        match position_of(b' ', self.bytes) {
            None => (self.bytes, None),
            Some(i) => {
                let rest = Text {
                    bytes: &self.bytes[i + 1..],
                    offset: self.offset + i + 1,
                };
                (&self.bytes[..i], Some(rest))
            }
        }
    }
}
