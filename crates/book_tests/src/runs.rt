// A run of calls from a start, and starts that are turned away.
use crate::setting::{MARKET, call, market};
use book::{Answer, Book, Call, Places, Refusal, Reply, Start};
use kinds::Listed;
use std::test::Fail;

// The replies of a run, as a number each: 0 for done, the cause of a refusal, or the centavos.
fn told(reply: Reply) -> u64 {
    match reply {
        Ok(Answer::Done) => 0,
        Ok(Answer::Minimum(centavos, _)) => centavos,
        Ok(Answer::Required(centavos)) => centavos,
        Err(refusal) => u64::from(refusal.number()),
    }
}

#[test]
fn runs(rt: HostRuntime) -> Result<(), Fail> {
    let table = [172_754u32];
    let calls = [
        Call::Minimum,
        Call::Trade(call(380_000), -30),
        Call::Trade(call(992_308), 1),
        Call::Minimum,
        Call::Required(1, &table),
        Call::Required(2, &table),
        Call::Change(market((0, 1, 0, 1, 1))),
        Call::Change(market((1_000_000, 256_450, 0, 50, 10_000))),
        Call::Minimum,
    ];
    let expected: [u64; 9] = [0, 0, 7, 11_539_500, 11_539_500, 12, 1, 0, 0];
    let mut replies = [Ok(Answer::Required(5)); 10];
    let places: Places<Listed> = Places::reserve(rt.alloc(), 2)?;
    match Book::start(places, Start::Fresh(MARKET), &calls, &mut replies) {
        Ok(book) => assert_eq!(rt; book.len(), 1usize),
        Err((refusal, _)) => return Err(Fail::new(refusal.number())),
    }
    for (reply, value) in replies.iter().zip(&expected) {
        assert_eq!(rt; told(*reply), *value);
    }
    assert_eq!(rt; told(replies[9]), 5u64);
    // a sheet that is refused, and too few places for replies
    let again: Places<Listed> = Places::reserve(rt.alloc(), 2)?;
    match Book::start(
        again,
        Start::Sheet("market 5\n0\n".as_bytes()),
        &calls,
        &mut replies,
    ) {
        Ok(_) => return Err(Fail::new("taken")),
        Err((refusal, places)) => {
            assert_eq!(rt; refusal.number(), 1u32);
            match Book::start(places, Start::Fresh(MARKET), &calls, &mut replies[0..8]) {
                Ok(_) => return Err(Fail::new("taken")),
                Err((refusal, _)) => assert_eq!(rt; refusal, Refusal::Buffer(9)),
            }
        }
    }
    assert_eq!(rt; told(replies[3]), 11_539_500u64);
    Ok(())
}

// The number of the cause for which a book is not started, or 0.
fn refused_start(
    rt: &HostRuntime,
    places: usize,
    start: Start,
    calls: &[Call<Listed>],
    replies: &mut [Reply],
) -> Result<u32, Fail> {
    let reserved: Places<Listed> = Places::reserve(rt.alloc(), places)?;
    match Book::start(reserved, start, calls, replies) {
        Ok(_) => Ok(0),
        Err((refusal, _)) => Ok(refusal.number()),
    }
}

// The causes in rising number, but too long a sheet before all.
#[test]
fn starts_turned_away(rt: HostRuntime) -> Result<(), Fail> {
    let calls: [Call<Listed>; 1] = [Call::Minimum];
    let mut none = [Ok(Answer::Done); 0];
    let no_market = Start::Fresh(market((0, 1, 0, 1, 1)));
    assert_eq!(rt; refused_start(&rt, 0, no_market, &calls, &mut none)?, 1u32);
    assert_eq!(rt;
        refused_start(&rt, 0, Start::Fresh(MARKET), &calls, &mut none)?,
        3u32
    );
    assert_eq!(rt;
        refused_start(&rt, 1, Start::Fresh(MARKET), &calls, &mut none)?,
        17u32
    );
    let longer = vec![in rt.alloc(); 120u8; 65537]?;
    assert_eq!(rt;
        refused_start(&rt, 0, Start::Sheet(longer.as_slice()), &calls, &mut none)?,
        19u32
    );
    let bad = "market 6\n".as_bytes();
    assert_eq!(rt;
        refused_start(&rt, 0, Start::Sheet(bad), &calls, &mut none)?,
        3u32
    );
    assert_eq!(rt;
        refused_start(&rt, 1, Start::Sheet(bad), &calls, &mut none)?,
        16u32
    );
    let good = "market 5\n1000\n1000\n10\n1\n1\npositions 1\nC 500 -1\n".as_bytes();
    assert_eq!(rt;
        refused_start(&rt, 1, Start::Sheet(good), &calls, &mut none)?,
        17u32
    );
    Ok(())
}
