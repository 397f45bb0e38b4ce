// Asks a book of options for its margins many times, so that the questions can be timed.
#![tactic(auto)]

mod asked;
mod example;
mod sizes;
mod values;

use asked::{minimums, requireds};
use book::{Book, Places, Refusal};
use example::opened;
use kinds::Listed;
use sizes::Sizes;
use std::{env, io};
use values::table;

fn print_minimums(rt: &HostRuntime, book: &Book<Listed>, times: u32) -> io::Result<()> {
    match book.minimum() {
        (centavos, Some(price)) => print!(rt; "minimum {centavos} at {price}")?,
        (centavos, None) => print!(rt; "minimum {centavos} at no price")?,
    }
    let sum = minimums(book, times);
    println!(rt; ", asked {times} times more: checksum {sum}")
}

fn print_requireds(
    rt: &HostRuntime,
    book: &Book<Listed>,
    scenarios: usize,
    values: &[u32],
    times: u32,
) -> io::Result<()> {
    match book.required(scenarios, values) {
        Ok(centavos) => print!(rt; "required {centavos}")?,
        Err(refusal) => return print_refusal(rt, refusal),
    }
    let sum = requireds(book, scenarios, values, times);
    println!(rt; ", asked {times} times more: checksum {sum}")
}

// By its number, as the programs do: a line each, and no `Display` that says more.
fn print_refusal(rt: &HostRuntime, refusal: Refusal) -> io::Result<()> {
    let number = refusal.number();
    println!(rt; "refused {number}")
}

fn main(rt: HostRuntime) -> io::Result<()> {
    let Some(sizes) = Sizes::read(env::args(&rt)?) else {
        return println!(rt;
            "usage: speed POSITIONS (1 to 128) SCENARIOS (1 to 405) MINIMUMS REQUIREDS"
        );
    };
    let values = table(rt.alloc(), sizes.scenarios * sizes.positions)?;
    let places = Places::reserve(rt.alloc(), 128)?;
    match opened(places, sizes.positions) {
        Ok(book) => {
            print_minimums(&rt, &book, sizes.minimums)?;
            print_requireds(
                &rt,
                &book,
                sizes.scenarios,
                values.as_slice(),
                sizes.requireds,
            )
        }
        Err(refusal) => print_refusal(&rt, refusal),
    }
}
