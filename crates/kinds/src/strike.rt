// The range of strikes.
ghost use Rattle.std.specs.Prelude.{◌≡◌};
ghost use Rattle.kinds.specs.Sides.{strike_right};

pub(crate) fn is_strike(strike: u32) -> bool
    ensures { result ≡ strike_right strike }
{
    (1..=20_000_000).contains(&strike)
}
