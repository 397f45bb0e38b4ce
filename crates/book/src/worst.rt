// The search for the worst price: through price 0 and every position's corners.
ghost use Rattle.std.specs.Prelude.{◌≡◌, ◌≤◌, [], ◌∷◌};
ghost use Rattle.kinds.specs.CornerPrices.{prices};
ghost use Rattle.kinds.specs.Kinds.{WhereFits};
ghost use Rattle.book.specs.Losses.{lost, told, Finds};
ghost use Rattle.book.specs.Prices.{Leads, Under, Worst};

use crate::found::Found;
use crate::held::Held;
use crate::position::Position;
use kinds::{Corners, Kind};

impl<K: Kind> Position<K> {
    // Its corners: under the variation if it is sold, plain if it is bought.
    fn corners(&self, variation: u32) -> Corners
        ensures { WhereFits K.means self.now.contract variation 0 (prices result ≡ told K.means variation self.now.contract self.now.net) }
    {
        if self.net < 0 {
            self.contract.corners_under(variation)
        } else {
            self.contract.corners()
        }
    }
}

impl<K: Kind> Held<'_, K> {
    // These three say `Finds`, which ties a price to the positions held: a type that held both would have to say at each step that they are the same.

    // The worse of what was found so far and a price: the greater loss, and on a tie the lower price.
    fn worse(&self, found: Found, price: u32) -> Found
        requires under { price ≤ self.now.market.numbers.ceiling }
        requires finds { Finds K.means self.now.variation self.now.market.numbers.ceiling self.now.positions.now found }
        ensures finds { Finds K.means self.now.variation self.now.market.numbers.ceiling self.now.positions.now result }
        ensures leads { Leads (lost K.means self.now.variation self.now.positions.now) result.price (found.price ∷ price ∷ []) }
    {
        let gain = self.value(price);
        if gain < found.gain || gain == found.gain && price < found.price {
            Found { price, gain }
        } else {
            found
        }
    }

    // The worst of what was found so far and of a position's corners.
    fn worst_corner(&self, found: Found, corners: Corners) -> Found
        requires under { Under self.now.market.numbers.ceiling (prices corners) }
        requires finds { Finds K.means self.now.variation self.now.market.numbers.ceiling self.now.positions.now found }
        ensures finds { Finds K.means self.now.variation self.now.market.numbers.ceiling self.now.positions.now result }
        ensures leads { Leads (lost K.means self.now.variation self.now.positions.now) result.price (found.price ∷ prices corners) }
    {
        match corners {
            Corners::Zero => found,
            Corners::One(a) => self.worse(found, a),
            Corners::Two(a, b) => self.worse(self.worse(found, a), b),
        }
    }

    // The lowest whole price at which the positions lose most, and what they are worth there.
    pub(crate) fn worst(&self) -> Found
        ensures finds { Finds K.means self.now.variation self.now.market.numbers.ceiling self.now.positions.now result }
        ensures worst { Worst (lost K.means self.now.variation self.now.positions.now) result.price }
    {
        let mut found = Found {
            price: 0,
            gain: self.value(0),
        };
        for position in self.positions {
            found = self.worst_corner(found, position.corners(self.variation));
        }
        found
    }
}
