// Checking a sheet to its end: the topmost faulty line decides, in it the first cause.
ghost use Rattle.std.specs.Prelude.{◌≡◌, ◌+◌, ◌≤◌, [], unsigned_abs, vec_capacity};
ghost use Rattle.book.specs.SheetReading.{Checked, CheckedOn, Tested, unread, named, joined_fault, length_fault, own_fault, positions_fault, lines_fault};

use crate::market_in_force::MarketInForce;
use crate::position::Position;
use crate::quantity::Quantity;
use crate::read_sheet::{read_count, read_market, read_position};
use kinds::Kind;
use sheet::{BookCause, Fault, LineCause, Reader, Stored};

// A sheet has at most 65,536 bytes.
pub(crate) fn check_length(sheet: &[u8]) -> Result<(), Fault>
    ensures { Checked (length_fault sheet.now) result }
{
    if sheet.len() > 65_536 {
        return Err(Fault::Book(0, BookCause::TooLong));
    }
    Ok(())
}

// A position by its own numbers, and in its market.
fn check_own<K: Stored>(
    position: &Position<K>,
    line: usize,
    market: &MarketInForce,
) -> Result<(), Fault>
    ensures { Checked (own_fault K.Kind.means K.Stored.stored market.now.numbers line position.now) result }
{
    if let Some(refusal) = position.contract.refusal() {
        return Err(Fault::Line(line, LineCause::Contract(refusal)));
    }
    if Quantity::new(position.net).is_err() {
        return Err(Fault::Line(line, LineCause::Quantity));
    }
    if !market.admits(&position.contract) {
        return Err(Fault::Book(line, BookCause::DoesNotFit));
    }
    Ok(())
}

// Whether one of the contracts seen is the same.
fn named<K: Kind>(seen: &[K], contract: &K) -> bool
    ensures { result ≡ named K.Kind.means contract.now seen.now }
{
    seen.iter().any(|other| other.same(contract))
}

// A position below others in the contracts seen, so many in all; the contracts with its own are answered.
fn check_position<K: Stored>(
    position: &Position<K>,
    line: usize,
    market: &MarketInForce,
    contracts: u32,
    seen: &[K],
) -> Result<u32, Fault>
    requires { contracts ≤ 10000 }
    ensures { Tested (joined_fault K.Kind.means K.Stored.stored market.now.numbers line contracts seen.now position.now) (λ n. (n ≡ contracts + unsigned_abs position.now.net) × (n ≤ 10000)) result }
{
    check_own(position, line, market)?;
    let contracts = contracts + position.net.unsigned_abs();
    if contracts > 10_000 {
        return Err(Fault::Book(line, BookCause::Contracts));
    }
    if named(seen, &position.contract) {
        return Err(Fault::Book(line, BookCause::NamedTwice));
    }
    Ok(contracts)
}

// So many position lines, and then the end of the sheet. The contracts seen are kept meanwhile.
fn check_positions<K: Stored>(
    reader: &mut Reader,
    market: &MarketInForce,
    count: usize,
    seen: &mut Vec<K>,
) -> Result<(), Fault>
    requires room { count ≤ vec_capacity seen.old }
    ensures room { vec_capacity seen.new ≡ vec_capacity seen.old }
    ensures checked { CheckedOn (positions_fault K.Kind.means K.Stored.stored market.now.numbers count (reader.old.lines + 1) [] (unread reader.old)) reader.old reader.new result }
{
    seen.clear();
    let mut contracts: u32 = 0;
    for _ in 0..count {
        let line = reader.line();
        let position = read_position::<K>(reader)?;
        contracts = check_position(&position, line, market, contracts, seen.as_slice())?;
        seen.push_reserved(position.contract);
    }
    reader.end()
}

// All lines of a sheet that is read into a book with so many places. Where a walk begins is asked of the reader, here and in two more functions: a type for a
// reader at its start would say it no shorter.
pub(crate) fn check_lines<K: Stored>(
    reader: &mut Reader,
    places: usize,
    seen: &mut Vec<K>,
) -> Result<(), Fault>
    requires start { reader.old.lines ≡ 0 }
    requires room { places ≤ vec_capacity seen.old }
    ensures room { vec_capacity seen.new ≡ vec_capacity seen.old }
    ensures checked { CheckedOn (lines_fault K.Kind.means K.Stored.stored places (unread reader.old)) reader.old reader.new result }
{
    let market = read_market(reader)?;
    let count = read_count(reader, places)?;
    check_positions(reader, &market, count as usize, seen)
}
