// Amounts as text, and what the rows of the circular's tables pay, by hand.
use crate::{PORTFOLIO_1, PORTFOLIO_3, hundredths};
use std::test::Fail;

#[test]
fn amounts_are_written(rt: HostRuntime) -> Result<(), Fail> {
    assert_eq!(rt; hundredths(rt.alloc(), 0)?.as_str(), "0.00");
    assert_eq!(rt; hundredths(rt.alloc(), 7)?.as_str(), "0.07");
    assert_eq!(rt;
        hundredths(rt.alloc(), -11_539_500)?.as_str(),
        "-115,395.00"
    );
    assert_eq!(rt;
        hundredths(rt.alloc(), 100_000_099)?.as_str(),
        "1,000,000.99"
    );
    Ok(())
}

#[test]
fn positions_pay(rt: HostRuntime) {
    assert_eq!(rt; PORTFOLIO_1.holdings[0].pays(385_000), -7_500_000);
    assert_eq!(rt; PORTFOLIO_1.holdings[0].pays(392_693), -11_539_500);
    assert_eq!(rt; PORTFOLIO_3.holdings[0].pays(392_693), 53_079_000);
}
