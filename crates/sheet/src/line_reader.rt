// A line that is being read, one field after another.
ghost use Rattle.std.specs.Prelude.{◌+◌, ◌^◌, ◌≤◌};
ghost use Rattle.std.specs.Option.{ForSome};

use crate::text::Text;

#[derive(Clone, Copy)]
pub(crate) struct LineReader<'a> {
    // what is left of the line: nothing once its last field was read
    pub(crate) rest: Option<Text<'a>>,
    pub(crate) line: usize,
    // the number of the field that comes next
    pub(crate) field: usize,
    // the offset behind the line feed, if the line has one
    pub(crate) next: Option<usize>,
    // each field but the last took a byte behind it, so their number fits
    ghost few: { (field ≤ 2 ^ 63 + 1) × ForSome rest (λ t. field ≤ t.offset + 1) },
}
