//! Hostile lines and small texts, with what the rules make of them.

use mt_base::{Registry, StructSpan, Text, Tokens, Value};
use mt_vertical::{BadLine, TextCause, TextError, read_text};
use std::alloc::{AllocError, Global};

fn push_value(line: &mut String, value: &str) -> Result<(), AllocError> {
    line.push_str("[")?;
    line.push_str(value)?;
    line.push_str("]")
}

/// The tokens, each in brackets.
fn push_tokens(line: &mut String, tokens: &Tokens) -> Result<(), AllocError> {
    for place in 0..tokens.len() {
        line.push_str("(")?;
        for column in 0..tokens.columns() {
            push_value(line, tokens.value(place, column))?;
        }
        line.push_str(")")?;
    }
    Ok(())
}

/// An instance behind `;`, as kind, begin, end and values.
fn push_instance(line: &mut String, span: &StructSpan) -> Result<(), AllocError> {
    write!(line, ";{}:{}-{}", span.kind(), span.begin(), span.end())?;
    for value in span.values().as_slice() {
        push_value(line, value.as_str())?;
    }
    Ok(())
}

/// A text in one line: its tokens and its instances.
fn shown(alloc: Global, text: &Text) -> Result<String, AllocError> {
    let mut line = String::new(alloc);
    push_tokens(&mut line, text.tokens())?;
    for span in text.structs().as_slice() {
        push_instance(&mut line, span)?;
    }
    Ok(line)
}

/// The text that these bytes are read as under the standard registry.
fn read(alloc: Global, bytes: &[u8]) -> Result<Text, TextError> {
    let registry = Registry::standard(alloc)?;
    read_text(alloc, Value::new(alloc, "t1")?, bytes, &registry)
}

/// Whether the bytes are read as the text that is shown so.
fn is_read(alloc: Global, bytes: &[u8], wanted: &str) -> bool {
    let Ok(text) = read(alloc, bytes) else {
        return false;
    };
    match shown(alloc, &text) {
        Ok(line) => line.as_str() == wanted && text.name().as_str() == "t1",
        Err(_) => false,
    }
}

/// Whether the bytes are refused for this line and cause.
fn is_refused(alloc: Global, bytes: &[u8], line: usize, cause: TextCause) -> bool {
    match read(alloc, bytes) {
        Ok(_) => false,
        Err(error) => error == TextError::Bad(BadLine { line, cause }),
    }
}

#[test]
fn reads_lines(rt: HostRuntime) {
    let rows: [(&[u8], &str); 24] = [
        (b"<s", "([<s][===NONE===][===NONE===])"),
        (b"<doc id=b>", "([<doc id=b>][===NONE===][===NONE===])"),
        (b"<doc id='x\"y'>", ";0:0-0[x\"y]"),
        (b"<doc id=\"1\" id=\"2\">", ";0:0-0[1]"),
        (b"<doc  id = \"1\"  >  ", ";0:0-0[1]"),
        (b"<doc n=\"1\"/>", ";0:0-0[===NONE===]"),
        (
            b"<doc id=\"1\"n=\"2\">",
            "([<doc id=\"1\"n=\"2\">][===NONE===][===NONE===])",
        ),
        (b"<doc id=\"&lt;>\">", ";0:0-0[&lt;>]"),
        (b"</s x>", "([</s x>][===NONE===][===NONE===])"),
        (b"<s/ >", "([<s/ >][===NONE===][===NONE===])"),
        (b"<s  />", ";1:0-0"),
        (b"< s>", "([< s>][===NONE===][===NONE===])"),
        (b" <s>", "([ <s>][===NONE===][===NONE===])"),
        (b"<s\t>", "([<s][>][===NONE===])"),
        (b"<s><s>", "([<s><s>][===NONE===][===NONE===])"),
        (b"<1>", "([<1>][===NONE===][===NONE===])"),
        (b"<?x", "([<?x][===NONE===][===NONE===])"),
        (b"<?x\ty?>", ""),
        (b"<!-- -->", ""),
        (b"<!-- --> ", "([<!-- --> ][===NONE===][===NONE===])"),
        (b"   ", ""),
        (b"\t\t", "([][][])"),
        (b"a\t\tb\tc", "([a][][b])"),
        (b"\xEF\xBB\xBFa\tb", "([a][b][===NONE===])"),
    ];
    for (line, wanted) in rows {
        assert!(rt; is_read(rt.alloc(), line, wanted), "at {line:?}");
    }
}

#[test]
fn reads_texts(rt: HostRuntime) {
    let rows: [(&[u8], &str); 8] = [
        (b"", ""),
        (b"a\tb\tc\r\n\r\nd\te\tf\r\n", "([a][b][c])([d][e][f])"),
        (
            b"<s>\na\tb\tc\n<s>\na\tb\tc\n</s>\n</s>\n<s/>\n",
            "([a][b][c])([a][b][c]);1:0-1;1:1-2;1:2-2",
        ),
        (b"<s>\na\tb\tc", "([a][b][c]);1:0-1"),
        (b"<s>\n<s/>\na\tb\tc\n</s>\n", "([a][b][c]);1:0-0;1:0-0"),
        (
            b"<doc id=\"1\">\n<s>\na\tb\tc\n</doc>\na\tb\tc\n",
            "([a][b][c])([a][b][c]);0:0-1[1];1:0-2",
        ),
        (b"<s>\n<p n=\"1\">\na\tb\tc\n</p>\n", "([a][b][c]);1:0-1"),
        (b"</g>\na\tb\tc\n<g/>\n", "([a][b][c]);2:1-1"),
    ];
    for (body, wanted) in rows {
        assert!(rt; is_read(rt.alloc(), body, wanted), "at {body:?}");
    }
}

#[test]
fn refuses_the_first_bad_line(rt: HostRuntime) {
    let long = [b'z'; 1025];
    let rows: [(&[u8], usize, TextCause); 5] = [
        (b"a\n\xff\n", 2, TextCause::NotUtf8),
        (b"<!--\xff-->", 1, TextCause::NotUtf8),
        (b"<p n='\xff'>", 1, TextCause::NotUtf8),
        (b"\n \xff", 2, TextCause::NotUtf8),
        (&long, 1, TextCause::ValueTooLong),
    ];
    for (body, line, cause) in rows {
        assert!(rt; is_refused(rt.alloc(), body, line, cause), "at {body:?}");
    }
    assert!(rt; read(rt.alloc(), &long[..1024]).is_ok());
}

/// What is not kept may be of any length.
#[test]
fn reads_long_fields_that_are_not_kept(rt: HostRuntime) {
    let mut line = [b'z'; 1030];
    line[..3].fill(b'\t');
    assert!(rt; is_read(rt.alloc(), &line, "([][][])"));
}
