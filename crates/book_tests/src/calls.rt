// Every cause of opening, trades, market changes and questions, and what an accepted call does. A table has a case a line.
use crate::setting::{MARKET, call, market, number, opened, put};
use book::{Book, Market, Places, Refusal};
use kinds::Listed;
use std::test::Fail;

// The cause for which a book is not opened, or 0.
fn refused_opening(rt: &HostRuntime, places: usize, market: Market) -> Result<u32, Fail> {
    let reserved: Places<Listed> = Places::reserve(rt.alloc(), places)?;
    match Book::open(reserved, market) {
        Ok(_) => Ok(0),
        Err((refusal, _)) => Ok(refusal.number()),
    }
}

#[test]
fn opening(rt: HostRuntime) -> Result<(), Fail> {
    let cases: [(usize, (u32, u32, u32, u32, u32), u32); 18] = [
        (1, (1, 1, 0, 1, 1), 0),
        (128, (20_000_000, 20_000_000, 10_000, 1, 1), 0),
        (128, (50_000, 50_000, 300, 1_000, 99_999), 0),
        (0, (1, 1, 0, 1, 1), 3),
        (129, (1, 1, 0, 1, 1), 3),
        // room is reserved for 128 places at most, whatever the count
        (18_446_744_073_709_551_615, (1, 1, 0, 1, 1), 3),
        (1, (0, 1, 0, 1, 1), 1),
        (1, (20_000_001, 1, 0, 1, 1), 1),
        (1, (5, 0, 0, 1, 1), 1),
        (1, (5, 6, 0, 1, 1), 1),
        (1, (5, 5, 10_001, 1, 1), 1),
        (1, (5, 5, 0, 0, 1), 1),
        (1, (5, 5, 0, 1_001, 1), 1),
        (1, (5, 5, 0, 1, 0), 1),
        (1, (5, 5, 0, 1, 100_000), 1),
        (1, (50_001, 5, 0, 1_000, 100_000), 1),
        (1, (50_001, 5, 0, 1_000, 99_999), 2),
        // the market is tried before the places
        (0, (50_001, 5, 0, 1_000, 99_999), 2),
    ];
    for (places, numbers, expected) in cases {
        assert_eq!(rt; refused_opening(&rt, places, market(numbers))?, expected);
    }
    Ok(())
}

#[test]
fn trades(rt: HostRuntime) -> Result<(), Fail> {
    let mut book: Book<Listed> = opened(&rt, 2, MARKET)?;
    let cases: [(Listed, i32, u32); 15] = [
        (call(380_000), 0, 6),
        (call(380_000), 10_001, 6),
        (call(380_000), -10_001, 6),
        (call(992_308), 1, 7),
        (put(7_692), 1, 7),
        (put(0), 1, 7),
        (call(992_307), -9_999, 0),
        (put(7_693), 1, 0),
        // contracts in all are tried before the places
        (call(380_000), 1, 8),
        (put(7_693), -1, 0),
        (call(380_000), 1, 0),
        (call(385_000), 1, 8),
        (call(380_000), -1, 0),
        (put(200_000), 1, 0),
        (call(992_307), 9_999, 0),
    ];
    for (contract, quantity, expected) in cases {
        assert_eq!(rt; number(book.trade(contract, quantity)), expected);
    }
    assert_eq!(rt; book.len(), 1usize);
    assert_eq!(rt; book.trade(call(380_000), 5), Ok(()));
    assert_eq!(rt; number(book.trade(call(385_000), 1)), 9u32);
    // through zero: the position keeps its place
    assert_eq!(rt; book.trade(put(200_000), -3), Ok(()));
    let first = book.position(0)?;
    assert_eq!(rt; first.contract.strike, 200_000u32);
    assert_eq!(rt; first.net, -2i32);
    assert_eq!(rt; book.position(2).err(), Some(Refusal::NoPosition));
    Ok(())
}

#[test]
fn market_changes(rt: HostRuntime) -> Result<(), Fail> {
    let mut book: Book<Listed> = opened(&rt, 4, MARKET)?;
    assert_eq!(rt; book.trade(call(300_000), 1), Ok(()));
    assert_eq!(rt; book.trade(call(990_000), 1), Ok(()));
    assert_eq!(rt;
        book.change(market((0, 1, 0, 1, 1))),
        Err(Refusal::MarketNumber(1))
    );
    assert_eq!(rt;
        book.change(market((50_001, 5, 0, 1_000, 99_999))),
        Err(Refusal::Product)
    );
    // 990,000 + 25,645 passes the ceiling
    assert_eq!(rt;
        book.change(market((1_000_000, 256_450, 1_000, 50, 10_000))),
        Err(Refusal::HeldDoesNotFit(1))
    );
    assert_eq!(rt; book.market().factor, 300u32);
    assert_eq!(rt; book.change(market((1_000_000, 256_450, 0, 1, 1))), Ok(()));
    assert_eq!(rt; book.market().factor, 0u32);
    Ok(())
}

#[test]
fn questions(rt: HostRuntime) -> Result<(), Fail> {
    let mut book: Book<Listed> = opened(&rt, 4, MARKET)?;
    assert_eq!(rt; book.minimum(), (0u64, None));
    assert_eq!(rt; book.required(1, &[]), Ok(0u64));
    assert_eq!(rt; book.trade(call(380_000), -30), Ok(()));
    assert_eq!(rt; book.minimum(), (11_539_500u64, Some(387_693u32)));
    // 30 × 172,754 × 50 × 10,000 exact units are 2,591,310 centavos
    assert_eq!(rt; book.required(1, &[172_754]), Ok(11_539_500u64));
    // 30 × 1,000,000 × 50 × 10,000 exact units are 15,000,000 centavos
    assert_eq!(rt; book.required(2, &[0, 1_000_000]), Ok(15_000_000u64));
    assert_eq!(rt; book.required(0, &[]), Err(Refusal::Scenarios));
    assert_eq!(rt; book.required(406, &[]), Err(Refusal::Scenarios));
    assert_eq!(rt; book.required(2, &[1]), Err(Refusal::TableLength));
    assert_eq!(rt;
        book.required(2, &[100_000_000, 100_000_001]),
        Err(Refusal::ScenarioValue(1))
    );
    assert_eq!(rt; book.value(387_693), Ok(-230_790i64));
    assert_eq!(rt; book.value(1_000_000), Ok(-230_790i64));
    assert_eq!(rt; book.value(380_001), Ok(-30i64));
    assert_eq!(rt; book.value(1_000_001), Err(Refusal::AboveCeiling));
    Ok(())
}
