// A line being written: at most 64 bytes. An array with its length, since writing may want no memory, and a line may be copied, which the library's `ArrayVec` may not.
ghost use Rattle.std.specs.Prelude.{◌≡◌, ◌≤◌, length};

#[derive(Clone, Copy)]
pub struct LineBuffer {
    pub(crate) bytes: [u8; 64],
    pub(crate) len: usize,
    ghost room: { (length bytes ≡ 64) × (len ≤ 64) },
}
