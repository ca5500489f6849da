//! Which texts are names, at the edges of the rule.
use crate::spelling::words;
use axe_command::{Name, NameFault};
use std::process::Abort;

/// Texts that are names.
const NAMES: &str = "A 7 a.b left_1-2+3. Z9";

/// Texts that are none.
const OTHERS: &str = r"'' . .a _a -a +a a/b .. a\sb a\n é aé a\0";

#[test]
fn letters_digits_and_inner_signs_make_names(rt: HostRuntime) {
    for text in &words(&rt, NAMES) {
        assert_name(&rt, text.as_str());
    }
    let longest = "n".repeat(rt.alloc(), 100).expect(&rt, "memory");
    assert_name(&rt, longest.as_str());
}

#[test]
fn other_texts_are_bad_names(rt: HostRuntime) {
    for text in &words(&rt, OTHERS) {
        assert_bad_name(&rt, text.as_str());
    }
    let too_long = "n".repeat(rt.alloc(), 101).expect(&rt, "memory");
    assert_bad_name(&rt, too_long.as_str());
}

/// Asserts that a text is a name with just this text, also when it is copied.
fn assert_name<R: Abort + AllocGlobal>(rt: &R, text: &str) {
    let name = Name::new(rt.alloc(), text).expect(rt, "a name");
    let copy = name.copy(rt.alloc()).expect(rt, "memory");
    assert!(rt;
        name.as_str() == text && copy.as_str() == text,
        "the name {text}"
    );
}

/// Asserts that a text is no name.
fn assert_bad_name<R: Abort + AllocGlobal>(rt: &R, text: &str) {
    let is_bad = matches!(Name::new(rt.alloc(), text), Err(NameFault::BadName));
    assert!(rt; is_bad, "a bad name: {text}");
}
