// A line that was read: its fields are parts of the sheet.
use crate::field::Field;

// The fields of a position line; kinds with a limiter have one more before the quantity.
#[derive(Clone, Copy)]
pub struct PositionLine<'a> {
    pub side: Field<'a>,
    pub strike: Field<'a>,
    pub limiter: Option<Field<'a>>,
    pub quantity: Field<'a>,
}

// One type for a line of any sort, which is what a reader of sheets asks for; that each of the reader's questions gives one sort is in its contract.
#[derive(Clone, Copy)]
pub enum Line<'a> {
    // a section head: its word and its number
    Head(Field<'a>, Field<'a>),
    Number(Field<'a>),
    Position(PositionLine<'a>),
}
