// Reading the lines of a sheet: each function reads on from where the reader stands, and tells the first fault.
ghost use Rattle.std.specs.Prelude.{◌≡◌, ◌≤◌, Some};
ghost use Rattle.sheet.specs.Forms.{head_forms};
ghost use Rattle.sheet.specs.StoredKinds.{position_forms};
ghost use Rattle.book.specs.SheetReading.{Checked, ReadOn, number_at, head_number, market_told, position_told, malformed, number_fault, market_fault, product_fault, head_fault};

use crate::market::Market;
use crate::market_in_force::MarketInForce;
use crate::market_rules::outside;
use crate::position::Position;
use sheet::{
    BookCause, Fault, Line, LineCause, MarketNumber, Reader, Stored, Word, quantity, short_number,
};

// The market's number that stands in the next line.
fn read_number(reader: &mut Reader, which: MarketNumber, low: u32, high: u32) -> Result<u32, Fault>
    ensures { ReadOn 1 (λ line. number_fault line which low high) (λ bs n. number_at 0 bs ≡ n) reader.old reader.new result }
{
    let line = reader.line();
    let Line::Number(field) = reader.number()? else {
        unreachable!()
    };
    let n = short_number(field.bytes).unwrap();
    if outside(n, low, high) {
        return Err(Fault::Line(line, LineCause::MarketNumber(u8::from(which))));
    }
    Ok(n)
}

// The number of a section head.
fn read_head(reader: &mut Reader, word: Word) -> Result<u32, Fault>
    ensures { ReadOn 1 (λ line. malformed line (head_forms word)) (λ bs n. head_number bs ≡ n) reader.old reader.new result }
{
    let Line::Head(_, number) = reader.head(word)? else {
        unreachable!()
    };
    Ok(short_number(number.bytes).unwrap())
}

// A market, whose last number stands in this line, by ceiling × size × rate.
fn check_product(market: &Market, line: usize) -> Result<(), Fault>
    ensures { Checked (product_fault line market.now) result }
{
    if market.is_too_large() {
        return Err(Fault::Book(line, BookCause::Product));
    }
    Ok(())
}

// The market at the head of a sheet. Each number is tried with its line, against the range that the market's own test gives it too; the definitions say both.
pub(crate) fn read_market(reader: &mut Reader) -> Result<MarketInForce, Fault>
    requires { reader.old.lines ≡ 0 }
    ensures { ReadOn 6 (λ _. market_fault) (λ bs m. market_told bs ≡ m.numbers) reader.old reader.new result }
{
    let _ = read_head(reader, Word::Market)?;
    let ceiling = read_number(reader, MarketNumber::Ceiling, 1, 20_000_000)?;
    let reference = read_number(reader, MarketNumber::Reference, 1, ceiling)?;
    let factor = read_number(reader, MarketNumber::Factor, 0, 10_000)?;
    let size = read_number(reader, MarketNumber::Size, 1, 1_000)?;
    let line = reader.line();
    let rate = read_number(reader, MarketNumber::Rate, 1, 99_999)?;
    let numbers = Market {
        ceiling,
        reference,
        factor,
        size,
        rate,
    };
    check_product(&numbers, line)?;
    Ok(MarketInForce { numbers })
}

// How many positions follow.
pub(crate) fn read_count(reader: &mut Reader, places: usize) -> Result<u32, Fault>
    ensures { ReadOn 1 (λ line. head_fault line places) (λ bs n. (head_number bs ≡ n) × (n ≤ places)) reader.old reader.new result }
{
    let line = reader.line();
    let count = read_head(reader, Word::Positions)?;
    if count as usize > places {
        return Err(Fault::Book(line, BookCause::Places));
    }
    Ok(count)
}

// The position of the next line, as plain numbers.
pub(crate) fn read_position<K: Stored>(reader: &mut Reader) -> Result<Position<K>, Fault>
    ensures { ReadOn 1 (λ line. malformed line (position_forms K.Stored.stored.limiter_form)) (λ bs p. position_told K.Stored.stored bs ≡ Some p) reader.old reader.new result }
{
    let Line::Position(fields) = reader.position::<K>()? else {
        unreachable!()
    };
    let contract = K::read(&fields).unwrap();
    let net = quantity(fields.quantity.bytes).unwrap();
    Ok(Position { contract, net })
}
