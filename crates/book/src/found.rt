// A price, and what a book is worth there.
#[derive(Clone, Copy)]
pub(crate) struct Found {
    pub(crate) price: u32,
    pub(crate) gain: i64,
}
