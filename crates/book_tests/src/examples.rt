// The worked examples of the margins.
use crate::setting::{MARKET, SMALL, call, opened, put};
use book::Book;
use kinds::{Flexible, Listed, Side};
use std::test::Fail;

#[test]
fn examples(rt: HostRuntime) -> Result<(), Fail> {
    let mut book: Book<Listed> = opened(&rt, 4, MARKET)?;
    assert_eq!(rt; book.trade(call(380_000), -30), Ok(()));
    assert_eq!(rt; book.trade(call(385_000), -30), Ok(()));
    assert_eq!(rt; book.trade(put(200_000), -30), Ok(()));
    assert_eq!(rt; book.minimum(), (23_079_000u64, Some(392_693u32)));
    assert_eq!(rt; book.trade(call(375_000), 60), Ok(()));
    assert_eq!(rt; book.minimum(), (11_539_500u64, Some(0u32)));
    let mut spread: Book<Listed> = opened(&rt, 4, MARKET)?;
    assert_eq!(rt; spread.trade(call(210_000), 1), Ok(()));
    assert_eq!(rt; spread.trade(call(220_000), -1), Ok(()));
    assert_eq!(rt; spread.minimum(), (0u64, None));
    let mut small: Book<Listed> = opened(&rt, 4, SMALL)?;
    assert_eq!(rt; small.trade(call(500), -1), Ok(()));
    assert_eq!(rt; small.minimum(), (1u64, Some(501u32)));
    let limiters: [(Option<u32>, u64, u32); 3] = [
        (Some(384_000), 6_000_000, 384_000),
        (Some(390_000), 11_539_500, 387_693),
        (None, 11_539_500, 387_693),
    ];
    for (limiter, centavos, price) in limiters {
        let mut flexible: Book<Flexible> = opened(&rt, 1, MARKET)?;
        let contract = Flexible {
            side: Side::Call,
            strike: 380_000,
            limiter,
        };
        assert_eq!(rt; flexible.trade(contract, -30), Ok(()));
        assert_eq!(rt; flexible.minimum(), (centavos, Some(price)));
    }
    Ok(())
}
