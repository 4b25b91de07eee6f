//! The examples of the docs of edits, in the same words.
use ansi_str::edits::edit_once;
use ansi_str::{Edit, ansi_is_whole, edit};
use std::borrow::CowStr;

#[test]
fn ansi_is_whole_example(rt: HostRuntime) {
    assert!(rt; ansi_is_whole("\x1b[31mred\x1b[m"));
    assert!(rt; !ansi_is_whole("\x1b[31"));
}

#[test]
fn edit_example(rt: HostRuntime) {
    let edits = [Edit::Prefix("> "), Edit::Left(2)];
    let edited = edit(rt.alloc(), "> \x1b[31mred", &edits);
    assert!(rt; matches!(&edited, Ok(Some(text)) if text.as_str() == "\x1b[31mre\x1b[39m"));
    assert!(rt; matches!(&edit(rt.alloc(), "red", &edits), Ok(None)));
}

#[test]
fn edit_once_example(rt: HostRuntime) {
    let given = CowStr::Borrowed("\x1b[31mred");
    let edited = edit_once(rt.alloc(), given, Edit::Left(2));
    assert!(rt; matches!(&edited, Ok(Some(text)) if text.as_str() == "\x1b[31mre\x1b[39m"));
}

#[test]
fn kinds_of_edits_example(rt: HostRuntime) {
    let part = Edit::Part { pat: " ", index: 1 };
    let edits = [part, Edit::Right(1), Edit::Suffix("!"), Edit::Trim];
    let edited = edit(rt.alloc(), "\x1b[1mlion tiger!", &edits);
    assert!(rt; matches!(&edited, Ok(Some(text)) if text.as_str() == "\x1b[1miger\x1b[22m"));
}
