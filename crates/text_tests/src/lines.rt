//! Lines, fields and whole numbers of a text.
use line_fields::{
    field_count, four_fields, has_field, is_word, line_count, next_line, one_field, tag,
    three_fields, unsigned_number, whole_number,
};
use std::test::Fail;

#[test]
fn the_cursor_gives_numbers_lines_and_rests(rt: HostRuntime) -> Result<(), Fail> {
    let text = b"\n  $Nodes\r\n\n1\t2.5  -3\r\n \t\r\nend".as_slice();
    let (first, opening, text) = next_line(text, 1).ok_or("first")?;
    assert_eq!(rt;
        (first, opening, text.len()),
        (2, b"  $Nodes\r".as_slice(), 19)
    );
    let (second, node, text) = next_line(text, 3).ok_or("second")?;
    assert_eq!(rt; (second, field_count(node)), (4, 3));
    let (number, x, y) = three_fields(node).ok_or("three")?;
    assert_eq!(rt;
        (whole_number(number), is_word(x, b"2.5"), tag(y)),
        (Some(1), true, Some(-3))
    );
    let (third, end, text) = next_line(text, 5).ok_or("third")?;
    assert!(rt; third == 6 && one_field(end) == Some(b"end".as_slice()));
    assert!(rt; next_line(text, 7).is_none());
    Ok(())
}

#[test]
fn fields_of_a_line_are_counted(rt: HostRuntime) -> Result<(), Fail> {
    let line = b" 7 4 2  1 1\t10 20 30 40\r".as_slice();
    assert_eq!(rt; field_count(line), 9);
    assert!(rt; four_fields(line).is_none() && four_fields(b"a b c").is_none());
    let (_, _, _, last) = four_fields(b"a b c d").ok_or("four")?;
    assert!(rt; is_word(last, b"d") && one_field(b"a b").is_none() && !has_field(b" \t\r"));
    Ok(())
}

#[test]
fn numbers_and_tags_are_read(rt: HostRuntime) {
    let cases: [(&[u8], Option<u32>, Option<i32>); 11] = [
        (b"0", Some(0), Some(0)),
        (b"007", Some(7), Some(7)),
        (b"2147483647", Some(2147483647), Some(2147483647)),
        (b"2147483648", None, None),
        (b"00000000007", None, None),
        (b"+5", None, None),
        (b"", None, None),
        (b"-", None, None),
        (b"-0", None, Some(0)),
        (b"--1", None, None),
        (b"-2147483647", None, Some(-2147483647)),
    ];
    for (field, number, with_sign) in cases {
        assert!(rt; whole_number(field) == number && tag(field) == with_sign);
    }
    assert_eq!(rt; unsigned_number(b"9999999999"), Some(9999999999));
    assert_eq!(rt; (line_count(b"\na\n\n b c\n"), line_count(b"")), (5, 1));
}
