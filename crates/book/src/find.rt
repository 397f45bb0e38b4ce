// The position that is held in a contract.
ghost use Rattle.std.specs.Prelude.{◌≡◌};
ghost use Rattle.std.specs.List.{position};

use crate::position::Position;
use kinds::Kind;

// The index of the first position whose contract is the same.
pub(crate) fn find<K: Kind>(positions: &[Position<K>], contract: &K) -> Option<usize>
    ensures { result ≡ position (λ p. K.means.same p.contract contract.now) positions.now }
{
    positions
        .iter()
        .position(|position| position.contract.same(contract))
}
