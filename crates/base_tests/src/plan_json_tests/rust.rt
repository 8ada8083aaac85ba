// What Rust's `serde_json` 1.0.87 answers on the same bytes: bench/json_baseline prints it.

use super::{assert_table, is_answer, whole};
use std::alloc::Global;
use std::test::Fail;

/// Rust keeps the two numbers that are out of range here as 64 bits without a sign.
const ROWS: [&str; 70] = [
    r#"whole | {"at":0} | 0"#,
    r#"whole | {"at":-0} | NotWhole"#,
    r#"whole | {"at":-0.0} | NotWhole"#,
    r#"whole | {"at":1.0} | NotWhole"#,
    r#"whole | {"at":1e3} | NotWhole"#,
    r#"whole | {"at":1E+2} | NotWhole"#,
    r#"whole | {"at":-1} | -1"#,
    r#"whole | {"at":01} | NotJson"#,
    r#"whole | {"at":1.} | NotJson"#,
    r#"whole | {"at":.5} | NotJson"#,
    r#"whole | {"at":+1} | NotJson"#,
    r#"whole | {"at":-} | NotJson"#,
    r#"whole | {"at":0x10} | NotJson"#,
    r#"whole | {"at":NaN} | NotJson"#,
    r#"whole | {"at":1e400} | NotJson"#,
    r#"whole | {"at":-1e400} | NotJson"#,
    r#"whole | {"at":1e-400} | NotWhole"#,
    r#"whole | {"at":0.1e1000} | NotJson"#,
    r#"whole | {"at":1e308} | NotWhole"#,
    r#"whole | {"at":18446744073709551615} | OutOfRange"#,
    r#"whole | {"at":18446744073709551616} | NotWhole"#,
    r#"whole | {"at":9223372036854775808} | OutOfRange"#,
    r#"whole | {"at":-9223372036854775808} | -9223372036854775808"#,
    r#"whole | {"at":-9223372036854775809} | NotWhole"#,
    r#"whole | {"at":123456789012345678901234567890} | NotWhole"#,
    r#"whole |  | NotJson"#,
    r#"whole |   | NotJson"#,
    "whole | \n | NotJson",
    r#"whole | null | NotObject"#,
    r#"whole | [] | NotObject"#,
    r#"whole | 5 | NotObject"#,
    r#"whole | "a" | NotObject"#,
    r#"whole | {} | Missing"#,
    r#"whole |  {}  | Missing"#,
    "whole | \t{\"at\":1}\r\n | 1",
    "whole | \u{b}{} | NotJson",
    "whole | \u{c}{} | NotJson",
    "whole | \u{feff}{} | NotJson",
    "whole | {}\u{feff} | NotJson",
    r#"whole | {}{} | NotJson"#,
    r#"whole | {} x | NotJson"#,
    r#"whole | {}, | NotJson"#,
    r#"whole | {"at":1,} | NotJson"#,
    r#"whole | {"at":1 "b":2} | NotJson"#,
    r#"whole | {at:1} | NotJson"#,
    r#"whole | {"at":1,"at":2} | 2"#,
    r#"whole | {"at":1,"at":null} | Missing"#,
    r#"whole | {"at":1e400,"at":2} | NotJson"#,
    r#"whole | {"\u0061t":7} | 7"#,
    r#"whole | {"at":true} | WrongKind"#,
    r#"whole | {"at":null} | Missing"#,
    r#"whole | {"at":{}} | WrongKind"#,
    r#"whole | {"at":nul} | NotJson"#,
    r#"whole | /**/{} | NotJson"#,
    r#"text | {"at":"a"} | 1"#,
    r#"text | {"at":"\u0000"} | 1"#,
    r#"text | {"at":"\/"} | 1"#,
    r#"text | {"at":"\ud83d\ude00"} | 4"#,
    "text | {\"at\":\"\u{7f}\"} | 1",
    "text | {\"at\":\"\u{80}\"} | 2",
    r#"text | {"at":"\x41"} | NotJson"#,
    r#"text | {"at":"\u004"} | NotJson"#,
    r#"text | {"at":"\ud83d"} | NotJson"#,
    r#"text | {"at":"\ude00"} | NotJson"#,
    r#"text | {"at":"\ud83dx"} | NotJson"#,
    r#"text | {"at":"\ud83d\u0041"} | NotJson"#,
    r#"text | {"at":"\ude00\ud83d"} | NotJson"#,
    "text | {\"at\":\"\t\"} | NotJson",
    "text | {\"at\":\"\u{1f}\"} | NotJson",
    r#"text | {"at":"a} | NotJson"#,
];

#[test]
fn members_are_as_in_rust(rt: HostRuntime) {
    assert_table(&rt, rt.alloc(), &ROWS);
}

/// Bytes that aren't UTF-8, or hold a control character.
const BYTES: [&[u8]; 6] = [
    b"{\"at\":\"\x00\"}",
    b"{\"at\":\"\xff\"}",
    b"{\"at\":\"\xc3\"}",
    b"{\"at\":\"\xed\xa0\x80\"}",
    b"{\"at\":\"\xc0\x80\"}",
    b"\xff{}",
];

#[test]
fn bytes_are_as_in_rust(rt: HostRuntime) {
    for bytes in BYTES.iter() {
        assert!(rt;
            is_answer(whole(rt.alloc(), bytes, 0, 9), "NotJson"),
            "{bytes:?}"
        );
    }
}

/// Adds a byte so many times.
fn push_times(text: &mut Vec<u8>, byte: u8, times: usize) -> Result<(), Fail> {
    for _ in 0..times {
        text.push(byte)?;
    }
    Ok(())
}

/// Whether a document that nests so many levels deep, itself one, has this answer.
fn has_levels(alloc: Global, levels: usize, wanted: &str) -> Result<bool, Fail> {
    let lists = levels.saturating_sub(1);
    let mut text = Vec::from_slice(alloc, b"{\"at\":")?;
    push_times(&mut text, b'[', lists)?;
    push_times(&mut text, b']', lists)?;
    text.push(b'}')?;
    Ok(is_answer(whole(alloc, &text, 0, 9), wanted))
}

#[test]
fn nesting_is_as_in_rust(rt: HostRuntime) -> Result<(), Fail> {
    assert!(rt; has_levels(rt.alloc(), 127, "WrongKind")?);
    assert!(rt; has_levels(rt.alloc(), 128, "NotJson")?);
    Ok(())
}
