//! Texts that no file and no command can give, since they hold a line feed, and lines of one text,
//! in each format.

use lq_output::{WriteErr, Writer};
use lq_records::{Format, Items, Separators};
use std::alloc::Global;
use std::test::Fail;

/// A format, a text, and the body of one line with the text and the number 3.
const BODIES: &[(Format, &str, &str)] = &[
    (Format::Quoted, "one\ntwo", "\"one\ntwo\",3\r\n"),
    (Format::Quoted, "\n", "\"\n\",3\r\n"),
    (Format::Quoted, "one\r\n", "\"one\r\n\",3\r\n"),
    (Format::Csv, "one\ntwo", "one\ntwo;3\n"),
    (Format::Json, "one\ntwo", "[[\"one\\ntwo\",3]]\n"),
    (
        Format::Json,
        "\0\u{1}\u{7}\u{8}\t\n\u{b}\u{c}\r\u{e}\u{1f} \u{7f}",
        "[[\"\\u0000\\u0001\\u0007\\b\\t\\n\\u000b\\f\\r\\u000e\\u001f \u{7f}\",3]]\n",
    ),
];

fn body_of(alloc: Global, format: Format, text: &str) -> Result<Items<u8>, WriteErr> {
    let mut writer = Writer::new(alloc, format, Separators::default())?;
    writer.text(text)?;
    writer.number(3)?;
    writer.end_line()?;
    writer.finish()
}

#[test]
fn line_feeds_in_texts_are_written_as_each_format_wants(rt: HostRuntime) -> Result<(), Fail> {
    for (format, text, expected) in BODIES {
        let body = body_of(rt.alloc(), *format, text);
        assert!(rt;
            body.is_ok_and(|body| body.as_slice() == expected.as_bytes()),
            "{:?}",
            text
        );
    }
    Ok(())
}

/// A format, and the body of a line with the text `a;b"` and one with the empty text.
const LINES: &[(Format, &str)] = &[
    (Format::Csv, "a;b\"\n\n"),
    (Format::Quoted, "\"a;b\"\"\"\r\n\r\n"),
    (Format::Json, "[[\"a;b\\\"\"],\n[\"\"]]\n"),
];

fn body_of_lines(alloc: Global, format: Format) -> Result<Items<u8>, WriteErr> {
    let mut writer = Writer::new(alloc, format, Separators::default())?;
    writer.text("a;b\"")?;
    writer.end_line()?;
    writer.text("")?;
    writer.end_line()?;
    writer.finish()
}

#[test]
fn lines_of_one_text_are_written_in_each_format(rt: HostRuntime) -> Result<(), Fail> {
    for (format, expected) in LINES {
        let body = body_of_lines(rt.alloc(), *format);
        assert!(rt;
            body.is_ok_and(|body| body.as_slice() == expected.as_bytes()),
            "{}",
            expected
        );
    }
    Ok(())
}
