// Where a mark first stands in bytes.
ghost use Rattle.std.specs.Prelude.{◌≡◌, ◌+◌, ◌<◌, length, take, drop, Some, None, MatchOption};
ghost use Rattle.sheet.specs.Cuts.{before, after};

pub(crate) fn position_of(mark: u8, bytes: &[u8]) -> Option<usize>
    ensures { MatchOption result ((after mark bytes.now ≡ None) × (before mark bytes.now ≡ bytes.now)) (λ i. (i < length bytes.now) × (before mark bytes.now ≡ take i bytes.now) × (after mark bytes.now ≡ Some (drop (i + 1) bytes.now))) }
{
    bytes.iter().position(|b| *b == mark)
}
