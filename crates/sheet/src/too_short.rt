// The caller's buffer is too short for what is to be written.
#[derive(Clone, Copy, PartialEq, Debug)]
pub struct TooShort {
    pub needed: usize,
}
