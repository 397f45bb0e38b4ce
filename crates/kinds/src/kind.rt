// What a book may ask of a contract, whatever its kind.
ghost use Rattle.std.specs.Prelude.{◌≡◌, ℕ};
ghost use Rattle.kinds.specs.Kinds.{Meaning, Lawful, WhereFits};
ghost use Rattle.kinds.specs.CornerPrices.{prices};

use crate::corners::Corners;

// Every reply is total. Fitting and sameness are told exactly for every contract; payments and corners where the contract
// fits, so that a kind can be written in 32 bits whatever it pays beyond the ceiling.
pub trait Kind: Copy {
    // the replies as functions over all whole prices
    ghost means: { Meaning Self };

    fn payment(&self, price: u32) -> u32
        ensures told { (v : ℕ) → WhereFits means self.now v price (result ≡ means.payment self.now price) };

    fn payment_under(&self, variation: u32, price: u32) -> u32
        ensures told { WhereFits means self.now variation price (result ≡ means.payment_under self.now variation price) };

    fn corners(&self) -> Corners
        ensures told { (v : ℕ) → WhereFits means self.now v 0 (prices result ≡ means.corners self.now) };

    fn corners_under(&self, variation: u32) -> Corners
        ensures told { WhereFits means self.now variation 0 (prices result ≡ means.corners_under self.now variation) };

    fn fits(&self, variation: u32, ceiling: u32) -> bool
        ensures told { result ≡ means.fits self.now variation ceiling };

    fn same(&self, other: &Self) -> bool
        ensures told { result ≡ means.same self.now other.now };

    // the six rules
    ghost lawful: { Lawful means };
}
