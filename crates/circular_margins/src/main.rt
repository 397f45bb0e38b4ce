// The margins that a book replies for the three example portfolios of BM&F circular 134/2006-DG, beside those that the circular prints.
#![tactic(auto)]

mod margins;

use margins::Margins;
use portfolios::{PORTFOLIO_1, PORTFOLIO_2, PORTFOLIO_3};
use std::io;

// What one contract of each row is worth in the portfolio's worst scenario, in ten-thousandths of a point. The circular prints only the portfolio's
// total there (tables 4.6, 4.9 and 4.12), and these values give it to the centavo.

// -25,913.10 = -30 × 50 × 17.2754
const WORST_1: [u32; 1] = [172_754];

// -46,740.60 = -30 × 50 × 31.1604 in the same scenario, so JA04 is worth the same. The put has its Garman-Kohlhagen value at the numbers of table 4.9
// (r over 177/252 of a year, rc simple over 257/360), and JA05 the rest: 13.8804, where the formula gives 13.878.
const WORST_2: [u32; 3] = [172_754, 138_804, 46];

// -7,862.70 = -30 × 50 × 5.2418 in another scenario. The calls have their Garman-Kohlhagen values at the numbers of table 4.12, and the put the rest:
// 5.2727, where the formula gives 5.274. (The equation below that table has -7,862.60, which no ten-thousandths of a point give.)
const WORST_3: [u32; 4] = [347, 231, 154, 52_727];

// The circular's margins, and the price at the head of its table's lowest total.
const PRINTED_1: Margins = Margins {
    minimum: 11_539_500,
    price: Some(387_693),
    required: 11_539_500,
};

const PRINTED_2: Margins = Margins {
    minimum: 23_079_000,
    price: Some(392_693),
    required: 23_079_000,
};

// The loss is the same at every price up to 1,923.07, the lowest that the circular tries; the book replies the lowest of all, 0.
const PRINTED_3: Margins = Margins {
    minimum: 11_539_500,
    price: Some(192_307),
    required: 11_539_500,
};

fn main(rt: HostRuntime) -> io::Result<()> {
    margins::print(&rt, &PORTFOLIO_1, &WORST_1, &PRINTED_1)?;
    println!(rt; "")?;
    margins::print(&rt, &PORTFOLIO_2, &WORST_2, &PRINTED_2)?;
    println!(rt; "")?;
    margins::print(&rt, &PORTFOLIO_3, &WORST_3, &PRINTED_3)
}
