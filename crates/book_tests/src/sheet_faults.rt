// Sheets with one fault each, and some that are taken. A table has a case a line: the sheet, its cause, line and field.
use book::{Book, Places, Refusal};
use kinds::{Flexible, Listed};
use sheet::Stored;
use std::test::Fail;

// Cause, line and field of a sheet's fault; zeros where it is taken. The field is 0 but for a malformed line.
fn fault<K: Stored>(rt: &HostRuntime, sheet: &[u8]) -> Result<(u32, usize, usize), Fail> {
    let places: Places<K> = Places::reserve(rt.alloc(), 3)?;
    match Book::from_sheet(places, sheet) {
        Ok(_) => Ok((0, 0, 0)),
        Err((Refusal::Sheet(fault), _)) => Ok((
            fault.number(),
            fault.line(),
            fault.field().unwrap_or(0),
        )),
        Err((refusal, _)) => Ok((refusal.number(), 0, 0)),
    }
}

// Each sheet with its cause, line and field; the first that is told otherwise fails.
fn check_all<K: Stored>(rt: &HostRuntime, cases: &[(&str, u32, usize, usize)]) -> Result<(), Fail> {
    for (sheet, cause, line, field) in cases {
        if fault::<K>(rt, sheet.as_bytes())? != (*cause, *line, *field) {
            return Err(Fail::new(sheet));
        }
    }
    Ok(())
}

const LISTED_SHEETS: [(&str, u32, usize, usize); 36] = [
    ("market 5\n1000\n1000\n10\n1\n1\npositions 0\n", 0, 0, 0),
    (
        "market 5\n1000\n1000\n10\n1\n1\npositions 2\nC 500 -1\nP 500 10\n",
        0,
        0,
        0,
    ),
    ("", 16, 1, 1),
    ("market 6\n", 16, 1, 2),
    ("market 5", 16, 1, 3),
    ("market 5\n", 16, 2, 1),
    ("market 5\n0\n", 1, 2, 0),
    ("market 5\n20000001\n", 1, 2, 0),
    ("market 5\n1000\n1001\n", 1, 3, 0),
    ("market 5\n1000\n1000\n10001\n", 1, 4, 0),
    ("market 5\n1000\n1000\n10\n1001\n", 1, 5, 0),
    ("market 5\n1000\n1000\n10\n1\n0\n", 1, 6, 0),
    ("market 5\n20000000\n1\n10\n1000\n99999\n", 2, 6, 0),
    // the topmost faulty line counts, in it a malformed field
    ("market 5\n20000000\n1\n10\n1000\n9999x\n", 16, 6, 1),
    ("market 5\n1000\n1000\n10\n1\n1\n7\n", 16, 7, 1),
    ("market 5\n1000\n1000\n10\n1\n1\npositions 4\n", 9, 7, 0),
    (
        "market 5\n1000\n1000\n10\n1\n1\npositions 123456789\n",
        16,
        7,
        2,
    ),
    ("market 5\n1000\n1000\n10\n1\n1\npositions 1\n", 16, 8, 1),
    (
        "market 5\n1000\n1000\n10\n1\n1\npositions 1\nC 500 1",
        16,
        8,
        4,
    ),
    (
        "market 5\n1000\n1000\n10\n1\n1\npositions 1\nC 0 x\n",
        16,
        8,
        3,
    ),
    (
        "market 5\n1000\n1000\n10\n1\n1\npositions 1\nC 0 0\n",
        4,
        8,
        0,
    ),
    (
        "market 5\n1000\n1000\n10\n1\n1\npositions 1\nC 20000001 1\n",
        4,
        8,
        0,
    ),
    (
        "market 5\n1000\n1000\n10\n1\n1\npositions 1\nC 1000 0\n",
        6,
        8,
        0,
    ),
    (
        "market 5\n1000\n1000\n10\n1\n1\npositions 1\nC 500 -10001\n",
        6,
        8,
        0,
    ),
    (
        "market 5\n1000\n1000\n10\n1\n1\npositions 1\nC 1000 1\n",
        7,
        8,
        0,
    ),
    (
        "market 5\n1000\n1000\n10\n1\n1\npositions 1\nC 999 1\n",
        0,
        0,
        0,
    ),
    (
        "market 5\n1000\n1000\n10\n1\n1\npositions 1\nP 1000 1\n",
        0,
        0,
        0,
    ),
    (
        "market 5\n1000\n1000\n10\n1\n1\npositions 2\nC 500 -10000\nC 501 1\n",
        8,
        9,
        0,
    ),
    // 8 goes before 18, and the later line is told
    (
        "market 5\n1000\n1000\n10\n1\n1\npositions 2\nC 500 -10000\nC 500 1\n",
        8,
        9,
        0,
    ),
    (
        "market 5\n1000\n1000\n10\n1\n1\npositions 3\nC 500 1\nP 500 1\nC 500 2\n",
        18,
        10,
        0,
    ),
    (
        "market 5\n1000\n1000\n10\n1\n1\npositions 3\nC 500 1\nC 500 1\nC 0 2\n",
        18,
        9,
        0,
    ),
    (
        "market 5\n1000\n1000\n10\n1\n1\npositions 1\nC 500 1\n\n",
        16,
        9,
        1,
    ),
    (
        "market 5\n1000\n1000\n10\n1\n1\npositions 1\nC 500 1\nP 500 1\n",
        16,
        9,
        1,
    ),
    (
        "market 5\n1000\n1000\n10\n1\n1\npositions 1\nC 500 1\nx",
        16,
        9,
        1,
    ),
    (
        "market 5\n1000\n1000\n10\n1\n1\npositions 1\nC 500 - 1\n",
        16,
        8,
        3,
    ),
    (
        "market 5\n1000\n1000\n10\n1\n1\npositions 0\nC 500 1\n",
        16,
        8,
        1,
    ),
];

#[test]
fn listed_sheets(rt: HostRuntime) -> Result<(), Fail> {
    check_all::<Listed>(&rt, &LISTED_SHEETS)
}

const FLEXIBLE_SHEETS: [(&str, u32, usize, usize); 10] = [
    (
        "market 5\n1000\n1000\n10\n1\n1\npositions 3\nC 500 - 1\nC 500 501 1\nP 500 0 -1\n",
        0,
        0,
        0,
    ),
    (
        "market 5\n1000\n1000\n10\n1\n1\npositions 1\nC 500 1\n",
        16,
        8,
        4,
    ),
    (
        "market 5\n1000\n1000\n10\n1\n1\npositions 1\nC 500 500 1\n",
        5,
        8,
        0,
    ),
    (
        "market 5\n1000\n1000\n10\n1\n1\npositions 1\nP 500 500 1\n",
        5,
        8,
        0,
    ),
    (
        "market 5\n1000\n1000\n10\n1\n1\npositions 1\nC 0 0 1\n",
        4,
        8,
        0,
    ),
    (
        "market 5\n1000\n1000\n10\n1\n1\npositions 1\nC 500 20000001 1\n",
        5,
        8,
        0,
    ),
    (
        "market 5\n1000\n1000\n10\n1\n1\npositions 1\nC 500 1001 1\n",
        7,
        8,
        0,
    ),
    (
        "market 5\n1000\n1000\n10\n1\n1\npositions 1\nC 999 1000 1\n",
        0,
        0,
        0,
    ),
    (
        "market 5\n1000\n1000\n10\n1\n1\npositions 2\nP 500 - 1\nP 500 0 1\n",
        0,
        0,
        0,
    ),
    (
        "market 5\n1000\n1000\n10\n1\n1\npositions 2\nP 500 0 1\nP 500 0 1\n",
        18,
        9,
        0,
    ),
];

#[test]
fn flexible_sheets(rt: HostRuntime) -> Result<(), Fail> {
    check_all::<Flexible>(&rt, &FLEXIBLE_SHEETS)
}

#[test]
fn long_sheets(rt: HostRuntime) -> Result<(), Fail> {
    let longest = vec![in rt.alloc(); 120u8; 65536]?;
    assert_eq!(rt;
        fault::<Listed>(&rt, longest.as_slice())?,
        (16u32, 1usize, 1usize)
    );
    let longer = vec![in rt.alloc(); 120u8; 65537]?;
    assert_eq!(rt;
        fault::<Listed>(&rt, longer.as_slice())?,
        (19u32, 0usize, 0usize)
    );
    Ok(())
}
