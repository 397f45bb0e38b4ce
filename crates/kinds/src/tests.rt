// Worked examples, by hand: what contracts pay, where they bend, what they fit, and why they are not made.
use crate::{ContractRefusal, Corners, Flexible, Kind, Listed, Side};

const CALL: Listed = Listed {
    side: Side::Call,
    strike: 380_000,
};

const PUT: Listed = Listed {
    side: Side::Put,
    strike: 200_000,
};

const LIMITED_CALL: Flexible = Flexible {
    side: Side::Call,
    strike: 380_000,
    limiter: Some(384_000),
};

const LIMITED_PUT: Flexible = Flexible {
    side: Side::Put,
    strike: 200_000,
    limiter: Some(0),
};

#[test]
fn listed_options_pay(rt: HostRuntime) {
    assert_eq!(rt; CALL.payment(380_000), 0);
    assert_eq!(rt; CALL.payment(387_694), 7_694);
    assert_eq!(rt; CALL.payment_under(7_693, 387_694), 7_693);
    assert_eq!(rt; PUT.payment(0), 200_000);
    assert_eq!(rt; PUT.payment_under(7_693, 192_308), 7_692);
    assert_eq!(rt; PUT.payment(200_001), 0);
}

#[test]
fn limited_options_pay_on_the_limiter(rt: HostRuntime) {
    assert_eq!(rt; LIMITED_CALL.payment(384_000), 4_000);
    assert_eq!(rt; LIMITED_CALL.payment(900_000), 4_000);
    assert_eq!(rt; LIMITED_CALL.payment_under(7_693, 900_000), 4_000);
    assert_eq!(rt; LIMITED_PUT.payment(0), 200_000);
    assert_eq!(rt;
        Flexible {
            side: Side::Put,
            strike: 200_000,
            limiter: Some(150_000),
        }
        .payment(0),
        50_000
    );
}

#[test]
fn corners(rt: HostRuntime) {
    assert_eq!(rt; CALL.corners(), Corners::One(380_000));
    assert_eq!(rt; CALL.corners_under(7_693), Corners::Two(380_000, 387_693));
    assert_eq!(rt; PUT.corners_under(7_693), Corners::Two(200_000, 192_307));
    assert_eq!(rt; LIMITED_CALL.corners(), Corners::Two(380_000, 384_000));
    assert_eq!(rt;
        LIMITED_CALL.corners_under(7_693),
        Corners::Two(380_000, 384_000)
    );
    assert_eq!(rt;
        LIMITED_PUT.corners_under(7_693),
        Corners::Two(200_000, 192_307)
    );
}

// The variation is 7,693 and the ceiling 1,000,000.
#[test]
fn fitting_at_the_edges(rt: HostRuntime) {
    assert!(rt;
        Listed {
            side: Side::Put,
            strike: 7_693,
        }
        .fits(7_693, 1_000_000)
    );
    assert!(rt;
        !Listed {
            side: Side::Put,
            strike: 7_692,
        }
        .fits(7_693, 1_000_000)
    );
    assert!(rt;
        Listed {
            side: Side::Call,
            strike: 992_307,
        }
        .fits(7_693, 1_000_000)
    );
    assert!(rt;
        !Listed {
            side: Side::Call,
            strike: 992_308,
        }
        .fits(7_693, 1_000_000)
    );
    assert!(rt;
        !Listed {
            side: Side::Call,
            strike: 0,
        }
        .fits(0, 1_000_000)
    );
    assert!(rt;
        Flexible {
            side: Side::Call,
            strike: 999_999,
            limiter: Some(1_000_000),
        }
        .fits(7_693, 1_000_000)
    );
    assert!(rt;
        !Flexible {
            side: Side::Call,
            strike: 999_999,
            limiter: Some(1_000_001),
        }
        .fits(7_693, 1_000_000)
    );
    assert!(rt;
        Flexible {
            side: Side::Put,
            strike: 1,
            limiter: Some(0),
        }
        .fits(7_693, 1_000_000)
    );
    assert!(rt;
        !Flexible {
            side: Side::Put,
            strike: 1,
            limiter: Some(1),
        }
        .fits(0, 1_000_000)
    );
}

#[test]
fn refusals(rt: HostRuntime) {
    assert_eq!(rt; Listed::new(Side::Call, 0), Err(ContractRefusal::Strike));
    assert_eq!(rt;
        Listed::new(Side::Put, 20_000_000),
        Ok(Listed {
            side: Side::Put,
            strike: 20_000_000,
        })
    );
    assert_eq!(rt;
        Listed::new(Side::Put, 20_000_001),
        Err(ContractRefusal::Strike)
    );
    assert_eq!(rt;
        Flexible::new(Side::Call, 0, Some(0)),
        Err(ContractRefusal::Strike)
    );
    assert_eq!(rt;
        Flexible::new(Side::Call, 500, Some(500)),
        Err(ContractRefusal::Limiter)
    );
    assert_eq!(rt;
        Flexible::new(Side::Put, 500, Some(500)),
        Err(ContractRefusal::Limiter)
    );
    assert_eq!(rt; Flexible::new(Side::Put, 200_000, Some(0)), Ok(LIMITED_PUT));
    assert_eq!(rt;
        Flexible::new(Side::Call, 500, Some(20_000_001)),
        Err(ContractRefusal::Limiter)
    );
}

#[test]
fn sameness(rt: HostRuntime) {
    assert!(rt; CALL.same(&CALL));
    assert!(rt; Side::Put.same(Side::Put));
    assert!(rt; !Side::Call.same(Side::Put));
    assert!(rt;
        !CALL.same(&Listed {
            side: Side::Put,
            strike: 380_000,
        })
    );
    assert!(rt;
        !LIMITED_PUT.same(&Flexible {
            side: Side::Put,
            strike: 200_000,
            limiter: None,
        })
    );
}
