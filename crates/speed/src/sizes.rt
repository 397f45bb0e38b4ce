// How large a book, how many scenarios, and how often each question is asked.
ghost use Rattle.std.specs.Prelude.{◌≤◌, IfSome};

use std::env::Args;

#[derive(Drop)]
pub struct Sizes {
    pub positions: usize,
    pub scenarios: usize,
    pub minimums: u32,
    pub requireds: u32,
    ghost some: { 1 ≤ positions },
    ghost most: { positions ≤ 128 },
    ghost few: { scenarios ≤ 405 },
}

// A number from low to high.
fn within(word: &str, low: usize, high: usize) -> Option<usize>
    ensures { IfSome result (λ n. (low ≤ n) × (n ≤ high)) }
{
    word.parse::<usize>()
        .ok()
        .filter(|n| (low..=high).contains(n))
}

impl Sizes {
    // The four numbers after the program's name.
    pub(crate) fn read(mut words: Args) -> Option<Sizes> {
        let _ = words.next()?;
        let positions = within(words.next()?.as_str(), 1, 128)?;
        let scenarios = within(words.next()?.as_str(), 1, 405)?;
        let minimums = words.next()?.parse::<u32>().ok()?;
        let requireds = words.next()?.parse::<u32>().ok()?;
        if words.next().is_some() {
            return None;
        }
        Some(Sizes {
            positions,
            scenarios,
            minimums,
            requireds,
        })
    }
}
