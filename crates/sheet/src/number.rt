// Reading the decimal numbers of a sheet.
ghost use Rattle.std.specs.Prelude.{◌≡◌, ◌^◌, ◌<◌, ◌≤◌, IfSome};
ghost use Rattle.sheet.specs.Decimals.{number_of, negated, quantity_of, NumbersInverse, QuantitiesInverse};

// A number of one to `most` digits, without a leading zero but for 0 itself. Not `parse`, which takes a plus and leading zeros.
fn number(bytes: &[u8], most: usize) -> Option<u64>
    requires { most ≤ 10 }
    ensures is { result ≡ number_of most bytes.now }
    ensures small { IfSome result (λ n. n < 10 ^ most) }
{
    if bytes.is_empty() || bytes.len() > most {
        return None;
    }
    if let [b'0', _, ..] = bytes {
        return None;
    }
    let mut n = 0u64;
    for b in bytes {
        if !b.is_ascii_digit() {
            return None;
        }
        n = n * 10 + u64::from(*b - b'0');
    }
    Some(n)
}

// A number of one to eight digits. The two widths of a sheet have a name each: `number::<8>(bytes)` would say less, and no public width may pass 10.
pub fn short_number(bytes: &[u8]) -> Option<u32>
    ensures is { result ≡ number_of 8 bytes.now }
    ensures small { IfSome result (λ n. n < 100000000) }
{
    let n = number(bytes, 8)?;
    Some(n as u32)
}

// A number of one to ten digits.
pub fn long_number(bytes: &[u8]) -> Option<u64>
    ensures { result ≡ number_of 10 bytes.now }
{
    number(bytes, 10)
}

// The negative quantity after its minus, which is not 0.
fn negative(digits: &[u8]) -> Option<i32>
    ensures { result ≡ negated (number_of 8 digits.now) }
{
    let n = short_number(digits)?;
    if n == 0 { None } else { Some(-(n as i32)) }
}

// A number of one to eight digits, with a minus where it is negative.
pub fn quantity(bytes: &[u8]) -> Option<i32>
    ensures { result ≡ quantity_of bytes.now }
{
    match bytes {
        [] => None,
        [b'-', digits @ ..] => negative(digits),
        _ => {
            let n = short_number(bytes)?;
            Some(n as i32)
        }
    }
}

// Reading and writing are inverse to each other, at each width that a sheet has.
pub fn decimals_are_inverse()
    ensures short { NumbersInverse 8 }
    ensures long { NumbersInverse 10 }
    ensures quantities { QuantitiesInverse }
{}
