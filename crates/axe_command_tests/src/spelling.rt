//! How words and texts are spelled in scripts and tables.
//!
//! They stand as they are, but `\n`, `\s` and `\0` stand for a newline, a space and a zero byte, and the word `''` for
//! the word without bytes. `..` in a wanted text stands for any text: what is before it is to begin the text, and what
//! is after it to be in the text.
use std::process::Abort;

/// The text that is spelled so.
pub(crate) fn plain<R: Abort + AllocGlobal>(rt: &R, spelled: &str) -> String {
    let mut text = String::new(rt.alloc());
    let mut is_escape = false;
    for sign in spelled.chars() {
        if is_escape {
            text.push(escaped(rt, sign)).expect(rt, "memory");
            is_escape = false;
        } else if sign == '\\' {
            is_escape = true;
        } else {
            text.push(sign).expect(rt, "memory");
        }
    }
    assert!(rt; !is_escape, "a backslash at the end: {spelled}");
    text
}

/// What a sign after a backslash stands for.
fn escaped(rt: &impl Abort, sign: char) -> char {
    match sign {
        'n' => '\n',
        's' => ' ',
        '0' => '\0',
        _ => rt.panic("an escape that is none of \\n, \\s and \\0"),
    }
}

/// The words that are spelled so, with spaces between them.
pub(crate) fn words<R: Abort + AllocGlobal>(rt: &R, line: &str) -> Vec<String> {
    let mut words = Vec::new(rt.alloc());
    for word in line.split_whitespace() {
        let spelled = if word == "''" { "" } else { word };
        words.push(plain(rt, spelled)).expect(rt, "memory");
    }
    words
}

/// What is before and after the first such mark of a line, which has to have one.
pub(crate) fn parts<'a, R: Abort>(rt: &R, line: &'a str, mark: &str) -> (&'a str, &'a str) {
    match line.split_once(mark) {
        Some(parts) => parts,
        None => rt.panic(line),
    }
}

/// Asserts that the text that a line gives is as wanted.
pub(crate) fn assert_text(rt: &impl Abort, line: &str, text: &str, wanted: &str) {
    let is_wanted = match wanted.split_once("..") {
        Some((start, part)) => text.starts_with(start) && text.contains(part),
        None => text == wanted,
    };
    assert!(rt; is_wanted, "{line}\ngives: {text}\nwanted: {wanted}");
}
