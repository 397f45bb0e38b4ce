// The scenario values: one for each scenario and position.
ghost use Rattle.std.specs.Prelude.{◌≡◌, ℕ, ◌<◌, ◌≤◌, IfOk, vec_len, slice_index};
ghost use Rattle.speed.specs.Examples.{value_at};

use std::alloc::{AllocError, Global};

// The value at a place of the table.
fn value(place: usize) -> u32
    requires { place < 51840 }
    ensures { result ≡ value_at place }
{
    (place * 7_919_003 % 100_000_001) as u32
}

// A table of so many values.
pub(crate) fn table(heap: Global, len: usize) -> Result<Vec<u32>, AllocError>
    requires { len ≤ 51840 }
    ensures { IfOk result (λ v. (vec_len v ≡ len) × ((k : ℕ) → k < len → slice_index v.items k ≡ value_at k)) }
{
    (0..len).map(value).collect(heap)
}
