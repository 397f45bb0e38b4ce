// A quantity of contracts times what one of them counts for.
ghost use Rattle.std.specs.Prelude.{◌≡◌, ◌*◌, ◌≤◌, pos, ◌*ℤ◌, unsigned_abs};

pub(crate) fn times(quantity: i32, each: u32) -> i64
    requires { unsigned_abs quantity ≤ 10000 }
    ensures is { result ≡ quantity *ℤ pos each }
    ensures bound { unsigned_abs result ≤ unsigned_abs quantity * 4294967295 }
{
    i64::from(quantity) * i64::from(each)
}
