// The questions, asked many times over. The replies are added up, so that none can be left out.
ghost use Rattle.std.specs.Prelude.{◌≡◌, ◌+◌, ◌%◌, ◌^◌};
ghost use Rattle.book.specs.Tallies.{tally_of};
ghost use Rattle.speed.specs.Checksums.{SumsMinimums, SumsRequireds};

use book::Book;
use kinds::Listed;

// Two loops, one for each question. One loop over a closure was tried: it proves, but what the closures reply was not found in their callers' proofs.

// The sum in 64 bits.
fn plus(sum: u64, reply: u64) -> u64
    ensures { result ≡ (sum + reply) % 2 ^ 64 }
{
    sum.wrapping_add(reply)
}

// The centavos and prices replied, added up.
pub(crate) fn minimums(book: &Book<Listed>, times: u32) -> u64
    ensures { SumsMinimums (tally_of book.now) times result }
{
    let mut sum = 0;
    for _ in 0..times {
        let (centavos, price) = book.minimum();
        sum = plus(sum, plus(centavos, u64::from(price.unwrap_or(0))));
    }
    sum
}

// The centavos replied, added up; a refusal adds nothing.
pub(crate) fn requireds(book: &Book<Listed>, scenarios: usize, values: &[u32], times: u32) -> u64
    ensures { SumsRequireds (tally_of book.now) scenarios values.now times result }
{
    let mut sum = 0;
    for _ in 0..times {
        sum = plus(sum, book.required(scenarios, values).unwrap_or(0));
    }
    sum
}
