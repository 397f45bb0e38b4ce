// Markets, contracts and opened books that the tests share.
use book::{Book, Market, Places, Refusal};
use kinds::{Kind, Listed, Side};
use std::test::Fail;

// its variation is 7,693; the same five numbers as in the programs, which the tests do not stand on
pub(crate) const MARKET: Market = Market {
    ceiling: 1_000_000,
    reference: 256_450,
    factor: 300,
    size: 50,
    rate: 10_000,
};

// one hundredth of a point of one contract is a ten-thousandth of a centavo
pub(crate) const SMALL: Market = Market {
    ceiling: 1_000,
    reference: 1_000,
    factor: 10,
    size: 1,
    rate: 1,
};

pub(crate) fn market(numbers: (u32, u32, u32, u32, u32)) -> Market {
    let (ceiling, reference, factor, size, rate) = numbers;
    Market {
        ceiling,
        reference,
        factor,
        size,
        rate,
    }
}

pub(crate) fn call(strike: u32) -> Listed {
    Listed {
        side: Side::Call,
        strike,
    }
}

pub(crate) fn put(strike: u32) -> Listed {
    Listed {
        side: Side::Put,
        strike,
    }
}

pub(crate) fn opened<K: Kind>(
    rt: &HostRuntime,
    places: usize,
    market: Market,
) -> Result<Book<K>, Fail> {
    match Book::open(Places::reserve(rt.alloc(), places)?, market) {
        Ok(book) => Ok(book),
        Err((refusal, _)) => Err(Fail::new(refusal.number())),
    }
}

// The number of the cause, or 0 where there is none: the tables give expected causes as numbers.
pub(crate) fn number(res: Result<(), Refusal>) -> u32 {
    match res {
        Ok(()) => 0,
        Err(refusal) => refusal.number(),
    }
}
