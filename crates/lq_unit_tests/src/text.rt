//! Lines, numbers, blanks and seconds in bytes.

use lq_text::{bracketed_second, is_blank, next_line, read_i64, read_u64, trim};

#[test]
fn lines_are_cut_at_line_feeds(rt: HostRuntime) {
    let cases: &[(&[u8], usize, Option<(usize, usize)>)] = &[
        (b"", 0, None),
        (b"ab", 2, None),
        (b"ab\n", 3, None),
        (b"ab\ncd\n", 0, Some((2, 3))),
        (b"ab\ncd\n", 3, Some((5, 6))),
        (b"ab\ncd\n", 1, Some((2, 3))),
        (b"ab\ncd\n", 2, Some((2, 3))),
        (b"ab\r\ncd", 0, Some((2, 4))),
        (b"ab\r\ncd", 4, Some((6, 6))),
        // The line feed alone is left of the line, so no carriage return stands before it there.
        (b"ab\r\ncd", 3, Some((3, 4))),
        (b"ab\r\r\n", 0, Some((3, 5))),
        (b"a\rb\n", 0, Some((3, 4))),
        (b"ab\r", 0, Some((3, 3))),
        (b"\r", 0, Some((1, 1))),
        (b"\n\n", 0, Some((0, 1))),
        (b"\n\n", 1, Some((1, 2))),
        (b"\n\n", 2, None),
        (b"\r\n", 0, Some((0, 2))),
        (b"ab", 0, Some((2, 2))),
        (b"a\0b\n", 0, Some((3, 4))),
        (b"\0", 0, Some((1, 1))),
    ];
    for (bytes, at, expected) in cases {
        assert!(rt; *at <= bytes.len());
        assert!(rt; next_line(*bytes, *at) == *expected, "at {at} of {bytes:?}");
    }
}

#[test]
fn numbers_are_digits_alone(rt: HostRuntime) {
    let cases: &[(&[u8], Option<u64>)] = &[
        (b"", None),
        (b"0", Some(0)),
        (b"7", Some(7)),
        (b"10", Some(10)),
        (b"4096", Some(4096)),
        (b"007", Some(7)),
        (b"18446744073709551614", Some(18_446_744_073_709_551_614)),
        (b"18446744073709551615", Some(u64::MAX)),
        (b"18446744073709551616", None),
        (b"18446744073709551625", None),
        (b"00000000000000018446744073709551615", Some(u64::MAX)),
        (b"00000000000000018446744073709551616", None),
        // 2 ^ 128, and 2 ^ 128 + 5
        (b"340282366920938463463374607431768211456", None),
        (b"340282366920938463463374607431768211461", None),
        (b"+1", None),
        (b"-1", None),
        (b" 1", None),
        (b"1 ", None),
        (b"1 2", None),
        (b"1\n", None),
        (b"0x10", None),
        (b"ten", None),
        (b"1\02", None),
    ];
    for (bytes, expected) in cases {
        assert!(rt; read_u64(*bytes) == *expected, "at {bytes:?}");
    }

    let mut zeros = [b'0'; 1000];
    assert!(rt; read_u64(&zeros) == Some(0));
    zeros[999] = b'9';
    assert!(rt; read_u64(&zeros) == Some(9));
    zeros[0] = b'1';
    assert!(rt; read_u64(&zeros) == None);
}

#[test]
fn blanks_are_spaces_and_tabs(rt: HostRuntime) {
    let cases: &[(&[u8], &[u8])] = &[
        (b"", b""),
        (b"ab", b"ab"),
        (b"  ab", b"ab"),
        (b"ab  ", b"ab"),
        (b"\t ab \t", b"ab"),
        (b" a b\tc ", b"a b\tc"),
        (b"    ", b""),
        (b"\t", b""),
        (b" \r\n", b"\r\n"),
        (b"\0 ", b"\0"),
    ];
    for (bytes, expected) in cases {
        assert!(rt; trim(*bytes) == *expected, "at {bytes:?}");
    }

    let cases = [
        (b' ', true),
        (b'\t', true),
        (b'\n', false),
        (b'\r', false),
        (b'a', false),
        (0, false),
        (8, false),
        (11, false),
        (12, false),
        (0xa0, false),
        (0xff, false),
    ];
    for (byte, expected) in cases {
        assert!(rt; is_blank(byte) == expected, "at {byte}");
    }
}

#[test]
fn integers_and_seconds_are_digits(rt: HostRuntime) {
    let cases: &[(&[u8], Option<i64>)] = &[
        (b"-9223372036854775808", Some(i64::MIN)),
        (b"9223372036854775807", Some(i64::MAX)),
        (b"-0", Some(0)),
        (b"9223372036854775808", None),
        (b"-9223372036854775809", None),
        (b"-", None),
        (b"+1", None),
    ];
    for (bytes, expected) in cases {
        assert!(rt; read_i64(*bytes) == *expected, "at {bytes:?}");
    }

    let cases: &[(&[u8], Option<(u64, usize)>)] = &[
        (b"[100] \tx", Some((100, 7))),
        (b"[999999999999]", Some((999_999_999_999, 14))),
        (b"[1000000000000]", None),
        (b"[]", None),
        (b"[1 ]", None),
        (b" [1]", None),
        (b"[1", None),
    ];
    for (bytes, expected) in cases {
        assert!(rt; bracketed_second(*bytes) == *expected, "at {bytes:?}");
    }
}
