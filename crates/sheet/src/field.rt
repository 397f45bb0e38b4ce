// A part of a sheet's bytes, with its place.

#[derive(Clone, Copy)]
pub struct Field<'a> {
    pub bytes: &'a [u8],
    // lines count from 1
    pub line: usize,
    // offsets in the sheet count from 0
    pub offset: usize,
}
