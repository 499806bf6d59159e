//! Decimals against texts whose places were worked out by hand, and places against their texts.
ghost use Rattle.std.specs.Prelude.{◌≤◌};

use dec_text::DecErr::{NotDecimal, OffGrid, OutOfBox};
use dec_text::{DecErr, FINEST_GRID, MOST_WRITTEN_DIGITS, Snap, grid_text, to_grid};
use std::process::Abort;
use std::test::Fail;

type Row = (&'static str, Result<i64, DecErr>);

// Whole numbers: signs, points at either end, exponents and digits of any length, the ends of the box.
const WHOLE: [Row; 39] = [
    ("7", Ok(7)),
    ("+7", Ok(7)),
    ("-7", Ok(-7)),
    ("007", Ok(7)),
    ("7.", Ok(7)),
    ("-7.", Ok(-7)),
    ("7.0", Ok(7)),
    ("7.000000000000000000000000000000000000000", Ok(7)),
    ("0000000000000000000000000000000000000007", Ok(7)),
    ("0", Ok(0)),
    ("-0", Ok(0)),
    (".0", Ok(0)),
    ("+.0", Ok(0)),
    ("1e3", Ok(1000)),
    ("1E3", Ok(1000)),
    ("1e+3", Ok(1000)),
    ("-1.5e1", Ok(-15)),
    ("1500e-2", Ok(15)),
    ("1.e2", Ok(100)),
    (".5e1", Ok(5)),
    ("15e-1", Err(OffGrid)),
    ("1e6", Ok(1000000)),
    ("1e7", Err(OutOfBox)),
    ("1e0000000000000000000000000000000000000002", Ok(100)),
    ("0.00000000000000000000000000000000000001e38", Ok(1)),
    ("100000000000000000000000000000000000000e-38", Ok(1)),
    ("0e999999999999", Ok(0)),
    ("0e-999999999999", Ok(0)),
    ("-0.000e99999999999999999999999999999999999999", Ok(0)),
    ("1e99999999999999999999999999999999999999", Err(OutOfBox)),
    ("1e-99999999999999999999999999999999999999", Err(OffGrid)),
    ("1e18446744073709551616", Err(OutOfBox)),
    ("1e-18446744073709551615", Err(OffGrid)),
    ("1.5", Err(OffGrid)),
    ("1048576", Ok(1048576)),
    ("-1048576", Ok(-1048576)),
    ("1048577", Err(OutOfBox)),
    ("-1048577", Err(OutOfBox)),
    ("1048577.5", Err(OffGrid)),
];

// Three digits.
const THOUSANDTHS: [Row; 7] = [
    (".5", Ok(500)),
    ("-.5", Ok(-500)),
    ("0.125", Ok(125)),
    ("12.5", Ok(12500)),
    ("0.1250", Ok(125)),
    ("0.1255", Err(OffGrid)),
    (".0005", Err(OffGrid)),
];

// Nine digits.
const FINEST: [Row; 4] = [
    ("1e-9", Ok(1)),
    ("1e-10", Err(OffGrid)),
    ("0.001048576", Ok(1048576)),
    ("0.001048577", Err(OutOfBox)),
];

// The nearest whole number: halves of both signs.
const NEAREST_WHOLE: [Row; 19] = [
    ("1.5", Ok(2)),
    ("0.5", Ok(1)),
    ("-0.5", Ok(-1)),
    ("-1.5", Ok(-2)),
    ("2.5", Ok(3)),
    ("-2.5", Ok(-3)),
    ("0.4999999999999999999999999999999999999999", Ok(0)),
    ("-0.4999999999999999999999999999999999999999", Ok(0)),
    ("0.5000000000000000000000000000000000000001", Ok(1)),
    ("5e-1", Ok(1)),
    ("05e-2", Ok(0)),
    ("1e-99999999999999999999999999999999999999", Ok(0)),
    ("1048576", Ok(1048576)),
    ("1048576.4", Ok(1048576)),
    ("1048576.5", Err(OutOfBox)),
    ("-1048576.5", Err(OutOfBox)),
    ("-1048576.49", Ok(-1048576)),
    ("1048577", Err(OutOfBox)),
    ("18446744073709551615.5", Err(OutOfBox)),
];

// The nearest of four digits.
const NEAREST_OF_FOUR: [Row; 3] = [
    ("1e-05", Ok(0)),
    ("5e-05", Ok(1)),
    ("0.4999999999986718", Ok(5000)),
];

// Four digits.
const FOUR: [Row; 3] = [
    ("1e-05", Err(OffGrid)),
    ("104.8576", Ok(1048576)),
    ("104.85761", Err(OffGrid)),
];

// Texts that only look like numbers.
const NO_DECIMALS: [&str; 33] = [
    "", "+", "-", ".", "+.", "e", "e5", ".e5", "1e", "1e+", "1e-", "1e5.", "1e5e5", "1.2.3", "..1",
    "--1", "+-1", "1-", "0x10", "1_000", "inf", "nan", "NaN", "1,5", " 1", "1 ", "1 5", "1\t",
    "1\n", "1e 5", "é", "1é", "１",
];

// Places, digits, and the shortest texts.
const TEXTS: [(i64, u8, &str); 12] = [
    (0, 0, "0"),
    (0, 9, "0"),
    (1500, 3, "1.5"),
    (-1500, 3, "-1.5"),
    (-5, 1, "-0.5"),
    (1, 9, "0.000000001"),
    (1048576, 4, "104.8576"),
    (-1048576, 0, "-1048576"),
    (1000, 3, "1"),
    (1010, 3, "1.01"),
    (i64::MIN, 18, "-9.223372036854775808"),
    (i64::MAX, 0, "9223372036854775807"),
];

#[test]
fn decimals_are_read(rt: HostRuntime) {
    reads(&rt, 0, Snap::Exact, &WHOLE);
    reads(&rt, 3, Snap::Exact, &THOUSANDTHS);
    reads(&rt, 9, Snap::Exact, &FINEST);
    reads(&rt, 0, Snap::Nearest, &NEAREST_WHOLE);
    reads(&rt, 4, Snap::Nearest, &NEAREST_OF_FOUR);
    reads(&rt, 4, Snap::Exact, &FOUR);
    for text in NO_DECIMALS {
        assert_eq!(&rt;
            to_grid(text.as_bytes(), 2, Snap::Exact),
            Err(NotDecimal),
            "at {text}"
        );
    }
    assert_eq!(&rt; to_grid(&[0x31, 0xff], 0, Snap::Exact), Err(NotDecimal));
    assert_eq!(&rt; to_grid(&[0xb1], 0, Snap::Nearest), Err(NotDecimal));
}

fn reads(rt: &impl Abort, digits: u8, snap: Snap, rows: &[Row])
    requires { digits ≤ FINEST_GRID }
{
    for (text, want) in rows {
        assert_eq!(rt; to_grid(text.as_bytes(), digits, snap), *want, "at {text}");
    }
}

#[test]
fn places_are_written(rt: HostRuntime) -> Result<(), Fail> {
    for (v, digits, want) in TEXTS {
        assert!(&rt; digits <= MOST_WRITTEN_DIGITS);
        let mut out = Vec::from_slice(rt.alloc(), b">")?;
        grid_text(rt.alloc(), v, digits, &mut out)?;
        assert_eq!(&rt; out.as_slice().first(), Some(&b'>'), "before {want}");
        assert_eq!(&rt; &out.as_slice()[1..], want.as_bytes(), "at {want}");
    }
    Ok(())
}
