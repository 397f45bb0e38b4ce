// Amounts in hundredths as text: 11,539,500 centavos are written 115,395.00.
ghost use Rattle.std.specs.Prelude.{IfOk, string_bytes};
ghost use Rattle.portfolios.specs.Amounts.{Grouped, Hundredths};

use std::alloc::{AllocError, Global};

// The digits of n, in groups of three. Digit by digit, as the definition names them, and not padded by `{:03}`.
fn grouped(heap: Global, n: u128) -> Result<String, AllocError>
    ensures { IfOk result (λ s. Grouped n (string_bytes s)) }
{
    if n < 1000 {
        return format!(in heap; "{n}");
    }
    let front = grouped(heap, n / 1000)?;
    let hundreds = n / 100 % 10;
    let tens = n / 10 % 10;
    let ones = n % 10;
    format!(in heap; "{front},{hundreds}{tens}{ones}")
}

// An amount in hundredths, with two decimals. A text and no Display: the tables pad it to a width, which takes the whole text.
pub fn hundredths(heap: Global, amount: i128) -> Result<String, AllocError>
    ensures { IfOk result (λ s. Hundredths amount (string_bytes s)) }
{
    let size = amount.unsigned_abs();
    let whole = grouped(heap, size / 100)?;
    let tenths = size / 10 % 10;
    let rest = size % 10;
    if amount < 0 {
        return format!(in heap; "-{whole}.{tenths}{rest}");
    }
    format!(in heap; "{whole}.{tenths}{rest}")
}
