//! Texts that are split into lines and words, and numbers that are read.

ghost use Rattle.std.specs.Prelude.{◌<◌, length};

use itoa::Buffer;
use rex_text::{lines, raw_lines, read_i64, read_u64, words};
use std::alloc::Global;
use std::test::Fail;

/// The words of a text's lines that are not skipped: `number:word,word,` for each line.
fn shown(alloc: Global, text: &[u8]) -> Result<String, Fail>
    requires { length text.now < 1000 }
{
    let mut out = String::new(alloc);
    for (number, words) in lines(text) {
        out.push_str(Buffer::new().format(number))?;
        out.push(':')?;
        for word in words {
            out.push_str(str::from_utf8(word)?)?;
            out.push(',')?;
        }
    }
    Ok(out)
}

/// Texts, and how [`shown`] shows their lines.
static TEXTS: [(&str, &str); 10] = [
    ("", ""),
    ("\n", ""),
    ("a", "1:a,"),
    ("a\n", "1:a,"),
    ("ab c\r\n\n x", "1:ab,c,3:x,"),
    ("# a\n\t #b\n \t\nc #d\n", "4:c,#d,"),
    ("\r\na\r", "2:a\r,"),
    (" a\t b \n\n", "1:a,b,"),
    ("a\rb\r\r\n", "1:a\rb\r,"),
    ("\n\n\nlast line", "4:last,line,"),
];

#[test]
fn texts_are_split(rt: HostRuntime) -> Result<(), Fail> {
    for (text, wanted) in &TEXTS {
        assert!(rt; text.len() < 1000);
        assert_eq!(rt; shown(rt.alloc(), text.as_bytes())?.as_str(), *wanted);
    }
    Ok(())
}

#[test]
fn raw_lines_are_as_they_stand(rt: HostRuntime) {
    let mut raw = raw_lines(b"# a\r\n\nb");
    assert!(rt; matches!(raw.next(), Some((1, b"# a"))));
    assert_eq!(rt; raw.count(), 2);
    assert_eq!(rt; words(b" a  bc\t").count(), 2);
}

/// The spellings of numbers that are no less than 0, and of signed ones.
static UNSIGNED: [(&str, u64); 3] = [
    ("0", 0),
    ("60", 60),
    ("18446744073709551615", 18_446_744_073_709_551_615),
];

static SIGNED: [(&str, i64); 3] = [
    ("-1", -1),
    ("-9223372036854775808", -9_223_372_036_854_775_808),
    ("9223372036854775807", 9_223_372_036_854_775_807),
];

#[test]
fn unsigned_numbers_are_read(rt: HostRuntime) {
    for (word, number) in &UNSIGNED {
        assert_eq!(rt; read_u64(word.as_bytes()), Some(*number));
    }
}

#[test]
fn signed_numbers_are_read(rt: HostRuntime) {
    for (word, number) in &SIGNED {
        assert_eq!(rt; read_i64(word.as_bytes()), Some(*number));
    }
}

/// Words that are neither.
static NO_NUMBERS: [&str; 8] = [
    "",
    "-",
    "+5",
    "00",
    "-0",
    "-05",
    "1a",
    "18446744073709551616",
];

#[test]
fn other_words_are_no_numbers(rt: HostRuntime) {
    for word in &NO_NUMBERS {
        let word = word.as_bytes();
        assert!(rt; read_u64(word).is_none() && read_i64(word).is_none());
    }
}
