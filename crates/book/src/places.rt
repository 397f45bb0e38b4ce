// Room for positions, reserved before a book is opened.
ghost use Rattle.std.specs.Prelude.{◌≡◌, ◌≤◌, min, vec_len, vec_capacity};

use crate::position::Position;
use kinds::Kind;

#[derive(Drop)]
pub struct Places<K: Kind> {
    pub(crate) count: usize,
    pub(crate) positions: Vec<Position<K>>,
    // room for the contracts of a sheet while it is checked
    pub(crate) seen: Vec<K>,
    ghost empty: { vec_len positions ≡ 0 },
    ghost room: { min count 128 ≤ vec_capacity positions },
    ghost spare: { min count 128 ≤ vec_capacity seen },
}
