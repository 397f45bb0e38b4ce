// The tables: a line, and the field at fault in it, or 0 for a good line. All lines are the first of their bytes.
use crate::field_at_fault;
use kinds::{ContractRefusal, Flexible, Listed, Side};
use sheet::{
    Fault, Line, Reader, Stored, TooShort, Word, head_line, long_number, number_line,
    position_line, quantity, short_number, write_head, write_number, write_position,
};
use std::process::Abort;
use std::test::Fail;

fn check_all<F: Fn(&mut Reader) -> Option<Fault>>(rt: &impl Abort, ask: F, cases: &[(&str, usize)])
    requires { F.IsAlwaysCallable ask }
{
    for (text, expected) in cases {
        assert_eq!(rt;
            field_at_fault(&ask, text.as_bytes()),
            *expected,
            "{}",
            text
        );
    }
}

#[test]
fn listed_lines(rt: HostRuntime) {
    check_all(
        &rt,
        |reader: &mut Reader| reader.position::<Listed>().err(),
        &[
            ("C 500 1\n", 0),
            ("P 20000000 -10000\n", 0),
            ("C 0 0\n", 0),
            ("C 99999999 -12345678\n", 0),
            // a byte that makes its field bad
            ("c 500 1\n", 1),
            ("D 500 1\n", 1),
            ("CC 500 1\n", 1),
            ("C\t500 1\n", 1),
            ("C 500\t1\n", 2),
            ("C 5a0 1\n", 2),
            ("C 500 1\r\n", 3),
            ("C 500 1\0\n", 3),
            ("C 500 ä\n", 3),
            // spaces
            (" C 500 1\n", 1),
            ("C  500 1\n", 2),
            ("C 500  1\n", 3),
            ("C 500 1 \n", 4),
            // missing and extra fields
            ("\n", 1),
            ("C\n", 2),
            ("C 500\n", 3),
            ("C 500 1 7\n", 4),
            ("C x 1 7\n", 2),
            // numbers
            ("C 0500 1\n", 2),
            ("C -500 1\n", 2),
            ("C +500 1\n", 2),
            ("C 123456789 1\n", 2),
            ("C 500 -0\n", 3),
            ("C 500 +1\n", 3),
            ("C 500 --1\n", 3),
            ("C 500 -\n", 3),
            ("C 500 01\n", 3),
            ("C 500 -123456789\n", 3),
            // a last line without its line feed
            ("C 500 1", 4),
            ("C 500", 3),
            ("C x 1", 2),
            ("C 500 1 7", 4),
            ("", 1),
            // a head or a flexible line in the place of a listed one
            ("positions 1\n", 1),
            ("C 500 600 1\n", 4),
            ("C 500 - 1\n", 3),
        ],
    );
}

#[test]
fn flexible_lines(rt: HostRuntime) {
    check_all(
        &rt,
        |reader: &mut Reader| reader.position::<Flexible>().err(),
        &[
            ("C 500 600 1\n", 0),
            ("P 500 0 -1\n", 0),
            ("C 500 - -1\n", 0),
            ("C 500 1\n", 4),
            ("C 500 -5 1\n", 3),
            ("C 500 -- 1\n", 3),
            ("C 500 00 1\n", 3),
            ("C 500  1\n", 3),
            ("C 500 600 1", 5),
            ("C 500 600 1 \n", 5),
        ],
    );
}

#[test]
fn heads_and_numbers(rt: HostRuntime) {
    check_all(
        &rt,
        |reader: &mut Reader| reader.head(Word::Market).err(),
        &[
            ("market 5\n", 0),
            ("market 6\n", 2),
            ("market 05\n", 2),
            ("Market 5\n", 1),
            ("market\n", 2),
            ("market 5 \n", 3),
            ("market 5", 3),
            ("", 1),
        ],
    );
    check_all(
        &rt,
        |reader: &mut Reader| reader.head(Word::Positions).err(),
        &[
            ("positions 0\n", 0),
            ("positions 129\n", 0),
            ("positions 123456789\n", 2),
            ("positions -1\n", 2),
            ("position 1\n", 1),
            ("1\n", 1),
        ],
    );
    check_all(
        &rt,
        |reader: &mut Reader| reader.head(Word::Scenarios).err(),
        &[("scenarios 405\n", 0)],
    );
    check_all(
        &rt,
        |reader: &mut Reader| reader.number().err(),
        &[
            ("1000000\n", 0),
            ("0\n", 0),
            ("00\n", 1),
            ("\n", 1),
            ("1 \n", 2),
            ("-1\n", 1),
            ("7", 2),
        ],
    );
    check_all(
        &rt,
        |reader: &mut Reader| reader.end().err(),
        &[("", 0), ("\n", 1), ("x", 1)],
    );
}

// Lines count from 1, offsets from 0; the second walk tells the same.
#[test]
fn places(rt: HostRuntime) -> Result<(), Fail> {
    let mut reader = Reader::new(b"market 5\n380000\n");
    for _ in 0..2 {
        assert_eq!(rt; reader.line(), 1);
        let Ok(Line::Head(word, number)) = reader.head(Word::Market) else {
            return Err(Fail::new("no head"));
        };
        assert_eq!(rt;
            (word.line, word.offset, number.line, number.offset),
            (1, 0, 1, 7)
        );
        assert_eq!(rt; reader.line(), 2);
        let Ok(Line::Number(field)) = reader.number() else {
            return Err(Fail::new("no number"));
        };
        assert_eq!(rt; (field.line, field.offset), (2, 9));
        assert_eq!(rt; short_number(field.bytes), Some(380_000));
        assert!(rt; reader.end().is_ok());
        assert_eq!(rt; reader.number().is_ok(), false);
        assert_eq!(rt; reader.line(), 3);
        reader.restart();
    }
    Ok(())
}

#[test]
fn positions_read(rt: HostRuntime) -> Result<(), Fail> {
    let mut reader = Reader::new(b"P 200000 150000 -30\nC 0 - 7\n");
    let Ok(Line::Position(line)) = reader.position::<Flexible>() else {
        return Err(Fail::new("no position"));
    };
    assert_eq!(rt; (line.strike.offset, line.quantity.offset), (2, 16));
    assert_eq!(rt; quantity(line.quantity.bytes), Some(-30));
    assert_eq!(rt;
        Flexible::read(&line),
        Some(Flexible {
            side: Side::Put,
            strike: 200_000,
            limiter: Some(150_000),
        })
    );
    assert_eq!(rt; Listed::read(&line), None);
    let Ok(Line::Position(line)) = reader.position::<Flexible>() else {
        return Err(Fail::new("no position"));
    };
    let contract = Flexible::read(&line).ok_or("no contract")?;
    assert_eq!(rt; contract.refusal(), Some(ContractRefusal::Strike));
    Ok(())
}

#[test]
fn numbers(rt: HostRuntime) {
    assert_eq!(rt; short_number(b"99999999"), Some(99_999_999));
    assert_eq!(rt; short_number(b"100000000"), None);
    assert_eq!(rt; long_number(b"9999999999"), Some(9_999_999_999));
    assert_eq!(rt; long_number(b"10000000000"), None);
    assert_eq!(rt; quantity(b"-12345678"), Some(-12_345_678));
}

#[test]
fn lines_written(rt: HostRuntime) {
    let mut out = [b'x'; 24];
    assert_eq!(rt;
        position_line(
            &Listed {
                side: Side::Call,
                strike: 380_000,
            },
            -30,
        )
        .write_to(&mut out),
        Ok(13)
    );
    assert!(rt; &out[0..14] == b"C 380000 -30\nx".as_slice());
    assert_eq!(rt;
        position_line(
            &Flexible {
                side: Side::Put,
                strike: 5,
                limiter: None,
            },
            10_000,
        )
        .write_to(&mut out),
        Ok(12)
    );
    assert!(rt; &out[0..13] == b"P 5 - 10000\n\n".as_slice());
    assert_eq!(rt; head_line(Word::Positions, 128).write_to(&mut out), Ok(14));
    assert!(rt; &out[0..15] == b"positions 128\nx".as_slice());
}

#[test]
fn lines_written_at_once(rt: HostRuntime) {
    let mut out = [b'x'; 24];
    let call = Listed {
        side: Side::Call,
        strike: 380_000,
    };
    assert_eq!(rt; write_position(&mut out, &call, -30), Ok(13));
    assert!(rt; &out[0..14] == b"C 380000 -30\nx".as_slice());
    assert_eq!(rt; write_head(&mut out, Word::Positions, 128), Ok(14));
    assert!(rt; &out[0..15] == b"positions 128\nx".as_slice());
    assert_eq!(rt;
        write_number(&mut out[0..8], 20_000_000),
        Err(TooShort { needed: 9 })
    );
    assert!(rt; &out[0..15] == b"positions 128\nx".as_slice());
    assert_eq!(rt; write_number(&mut out[0..8], 7_654_321), Ok(8));
}

#[test]
fn short_buffers(rt: HostRuntime) {
    let mut out = [b'x'; 8];
    assert_eq!(rt;
        number_line(20_000_000).write_to(&mut out),
        Err(TooShort { needed: 9 })
    );
    assert!(rt; out == [b'x'; 8]);
    assert_eq!(rt; number_line(7_654_321).write_to(&mut out), Ok(8));
    assert!(rt; &out == b"7654321\n");
}
