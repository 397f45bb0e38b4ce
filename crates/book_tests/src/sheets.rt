// Sheets of a book: written, refused and read.
use crate::setting::{MARKET, call, number, opened, put};
use book::{Book, Refusal};
use kinds::Listed;
use std::test::Fail;

// A refused sheet leaves the book; an accepted one is written back byte for byte.
#[test]
fn sheets_of_a_book(rt: HostRuntime) -> Result<(), Fail> {
    let mut book: Book<Listed> = opened(&rt, 3, MARKET)?;
    assert_eq!(rt; book.trade(call(380_000), -30), Ok(()));
    assert_eq!(rt; book.trade(put(200_000), 10), Ok(()));
    let text =
        "market 5\n1000000\n256450\n300\n50\n10000\npositions 2\nC 380000 -30\nP 200000 10\n";
    let mut short = [7u8; 73];
    assert_eq!(rt; book.write(&mut short), Err(Refusal::Buffer(74)));
    assert_eq!(rt; short[0], 7u8);
    let mut out = [7u8; 77];
    assert_eq!(rt; book.write(&mut out), Ok(74usize));
    assert!(rt; &out[0..74] == text.as_bytes());
    assert!(rt; out[74] == 7 && out[75] == 7 && out[76] == 7);
    assert_eq!(rt; number(book.read("market 5\n0\n".as_bytes())), 1u32);
    assert_eq!(rt; book.len(), 2usize);
    assert_eq!(rt; book.minimum(), (11_539_500u64, Some(387_693u32)));
    assert_eq!(rt;
        book.read("market 5\n1000\n1000\n10\n1\n1\npositions 1\nC 500 -1\n".as_bytes()),
        Ok(())
    );
    assert_eq!(rt; book.len(), 1usize);
    assert_eq!(rt; book.minimum(), (1u64, Some(501u32)));
    Ok(())
}
