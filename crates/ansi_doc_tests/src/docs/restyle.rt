//! The examples of the docs of `ansi_restyle`, in the same words.
use ansi_restyle::AnsiRestyle;
use ansi_restyle::links::{Links, link_in, unlink_in};
use ansi_restyle::matches::Matches;
use ansi_restyle::remove::remove_in;
use ansi_restyle::replace::{insert_in, replace_in};
use ansi_restyle::replace_all::replace_all_in;
use ansi_restyle::replace_each::{Replacement, replace_each_in};
use ansi_restyle::restyle::{mark_in, refused_range, restyle_in};
use ansi_restyle::styles::{codes_of, difference, style_of, union};
use ansi_str::Color;
use std::test::Fail;

#[test]
fn matches_example(rt: HostRuntime) {
    let mut matches = Matches::new("a\x1b[1mba\x1b[0mb", "ab");
    assert!(rt; matches.next() == Some((0, 2)));
    assert!(rt; matches.next() == Some((2, 4)));
    assert!(rt; matches.next() == None);
}

#[test]
fn restyle_in_example(rt: HostRuntime) {
    let marked = restyle_in(rt.alloc(), "a \x1b[31mred\x1b[39m b", &[(0, 3)], "7");
    assert!(rt;
        matches!(&marked, Ok(Some(marked)) if marked.as_str() == "\x1b[7ma \x1b[27m\x1b[31m\x1b[7mr\x1b[27m\x1b[39m\x1b[31med\x1b[39m b")
    );
}

#[test]
fn mark_in_example(rt: HostRuntime) {
    let marked = mark_in(rt.alloc(), "a \x1b[1mmat\x1b[0mch", "match", "7");
    assert!(rt;
        matches!(&marked, Ok(Some(marked)) if marked.as_str() == "a \x1b[1m\x1b[7mmat\x1b[22m\x1b[27m\x1b[1m\x1b[0m\x1b[7mch\x1b[27m")
    );
}

#[test]
fn refused_range_example(rt: HostRuntime) {
    assert!(rt; refused_range("\x1b[31mred", &[(0, 1), (1, 3)]).is_none());
    assert!(rt; refused_range("\x1b[31mred", &[(0, 2), (1, 3)]) == Some(1));
    assert!(rt; refused_range("\x1b[31mred", &[(0, 4), (5, 6)]) == Some(0));
}

#[test]
fn ansi_restyle_trait_example(rt: HostRuntime) {
    let marked = "one \x1b[32mtwo\x1b[39m".ansi_mark(rt.alloc(), "two", "1");
    assert!(rt;
        matches!(&marked, Ok(Some(marked)) if marked.as_str() == "one \x1b[32m\x1b[1mtwo\x1b[22m\x1b[39m\x1b[32m\x1b[39m")
    );
}

#[test]
fn ansi_matches_example(rt: HostRuntime) {
    let mut matches = "a\x1b[1mba\x1b[0mb".ansi_matches("ab");
    assert!(rt; matches.next() == Some((0, 2)) && matches.next() == Some((2, 4)));
    assert!(rt; matches.next().is_none());
}

#[test]
fn ansi_find_from_example(rt: HostRuntime) {
    assert!(rt; "ab\x1b[1mab".ansi_find_from(1, "ab") == Some(2));
    assert!(rt; "ab\x1b[1mab".ansi_find_from(3, "ab").is_none());
}

#[test]
fn ansi_restyle_example(rt: HostRuntime) {
    let marked = "red \x1b[31mred".ansi_restyle(rt.alloc(), &[(0, 2), (5, 6)], "4");
    assert!(rt;
        matches!(&marked, Ok(Some(marked)) if marked.as_str() == "\x1b[4mre\x1b[24md \x1b[31mr\x1b[4me\x1b[24m\x1b[39m\x1b[31md")
    );
}

#[test]
fn ansi_mark_example(rt: HostRuntime) {
    let marked = "to do: \x1b[1mdo".ansi_mark(rt.alloc(), "do", "7");
    assert!(rt;
        matches!(&marked, Ok(Some(marked)) if marked.as_str() == "to \x1b[7mdo\x1b[27m: \x1b[1m\x1b[7mdo\x1b[22m\x1b[27m\x1b[1m")
    );
}

#[test]
fn remove_in_example(rt: HostRuntime) {
    let shorter = remove_in(rt.alloc(), "a \x1b[31mred\x1b[39m b", (1, 4));
    assert!(rt;
        matches!(&shorter, Ok(Some(shorter)) if shorter.as_str() == "a\x1b[31md\x1b[39m b")
    );
}

#[test]
fn ansi_remove_example(rt: HostRuntime) {
    let shorter = "one \x1b[1mtwo\x1b[22m three".ansi_remove(rt.alloc(), (2, 5));
    assert!(rt;
        matches!(&shorter, Ok(Some(shorter)) if shorter.as_str() == "on\x1b[1mwo\x1b[22m three")
    );
    assert!(rt; matches!("one".ansi_remove(rt.alloc(), (2, 5)), Ok(None)));
}

#[test]
fn replace_in_example(rt: HostRuntime) {
    let replaced = replace_in(rt.alloc(), "a \x1b[31mred\x1b[39m b", (2, 5), "\x1b[1mbig");
    assert!(rt;
        matches!(&replaced, Ok(Some(replaced)) if replaced.as_str() == "a \x1b[1mbig\x1b[22m\x1b[31m\x1b[39m b")
    );
}

#[test]
fn insert_in_example(rt: HostRuntime) {
    let longer = insert_in(rt.alloc(), "a \x1b[31mred\x1b[39m b", 5, "dish");
    assert!(rt;
        matches!(&longer, Ok(Some(longer)) if longer.as_str() == "a \x1b[31mreddish\x1b[39m b")
    );
}

#[test]
fn ansi_replace_example(rt: HostRuntime) {
    let replaced = "\x1b[32mgreen\x1b[39m".ansi_replace(rt.alloc(), (1, 3), "\x1b[1mAB");
    assert!(rt;
        matches!(&replaced, Ok(Some(replaced)) if replaced.as_str() == "\x1b[32mg\x1b[1mAB\x1b[22m\x1b[39m\x1b[32men\x1b[39m")
    );
    assert!(rt; matches!("one".ansi_replace(rt.alloc(), (2, 5), "1"), Ok(None)));
}

#[test]
fn ansi_insert_example(rt: HostRuntime) {
    let longer = "\x1b[32mgreen\x1b[39m.".ansi_insert(rt.alloc(), 5, "ish");
    assert!(rt;
        matches!(&longer, Ok(Some(longer)) if longer.as_str() == "\x1b[32mgreenish\x1b[39m.")
    );
    assert!(rt; matches!("one".ansi_insert(rt.alloc(), 4, "s"), Ok(None)));
}

#[test]
fn unlink_in_example(rt: HostRuntime) {
    let bare = unlink_in(rt.alloc(), "\x1b]8;;http://x\x1b\\a\x1b[1mb\x1b]8;;\x1b\\");
    assert!(rt; matches!(&bare, Ok(bare) if bare.as_str() == "a\x1b[1mb"));
}

#[test]
fn ansi_unlink_example(rt: HostRuntime) {
    let bare = "\x1b]8;;http://x\x1b\\a \x1b[1mlink\x1b[0m\x1b]8;;\x1b\\".ansi_unlink(rt.alloc());
    assert!(rt; matches!(&bare, Ok(bare) if bare.as_str() == "a \x1b[1mlink\x1b[0m"));
}

#[test]
fn links_example(rt: HostRuntime) {
    let mut links = Links::new("a \x1b]8;;http://x\x1b\\link\x1b]8;;\x1b\\");
    assert!(rt;
        matches!(links.next(), Some(link) if link.range == (2, 6) && link.address == "http://x")
    );
    assert!(rt; links.next().is_none());
}

#[test]
fn ansi_links_example(rt: HostRuntime) {
    let mut links = "a \x1b]8;;http://x\x1b\\l\x1b[1mink\x1b]8;;\x1b\\".ansi_links();
    assert!(rt;
        matches!(links.next(), Some(link) if link.range == (2, 6) && link.address == "http://x")
    );
    assert!(rt; links.next().is_none());
}

#[test]
fn replace_all_in_example(rt: HostRuntime) {
    let replaced = replace_all_in(rt.alloc(), "a \x1b[31mred\x1b[39m deed", "ed", "\x1b[1mip");
    assert!(rt;
        matches!(&replaced, Ok(replaced) if replaced.as_str() == "a \x1b[31mr\x1b[1mip\x1b[22m\x1b[39m\x1b[31m\x1b[39m de\x1b[1mip\x1b[22m")
    );
}

#[test]
fn ansi_replace_all_example(rt: HostRuntime) {
    let replaced = "\x1b[32mone\x1b[39m, one".ansi_replace_all(rt.alloc(), "one", "two");
    assert!(rt;
        matches!(&replaced, Ok(replaced) if replaced.as_str() == "\x1b[32mtwo\x1b[39m, two")
    );
}

#[test]
fn replace_each_in_example(rt: HostRuntime) {
    let edits = [
        Replacement {
            range: (0, 1),
            with: "A",
        },
        Replacement {
            range: (3, 5),
            with: "\x1b[1mip",
        },
    ];
    let replaced = replace_each_in(rt.alloc(), "a \x1b[31mred\x1b[39m", &edits);
    assert!(rt;
        matches!(&replaced, Ok(Some(replaced)) if replaced.as_str() == "A \x1b[31mr\x1b[1mip\x1b[22m\x1b[39m\x1b[31m\x1b[39m")
    );
}

#[test]
fn ansi_replace_each_example(rt: HostRuntime) {
    let edits = [
        Replacement {
            range: (0, 3),
            with: "1",
        },
        Replacement {
            range: (4, 7),
            with: "2",
        },
    ];
    let replaced = "\x1b[32mone\x1b[39m two".ansi_replace_each(rt.alloc(), &edits);
    assert!(rt;
        matches!(&replaced, Ok(Some(replaced)) if replaced.as_str() == "\x1b[32m1\x1b[39m 2")
    );
}

#[test]
fn link_in_example(rt: HostRuntime) {
    let linked = link_in(rt.alloc(), "see \x1b[1mhere", (4, 8), "http://x");
    assert!(rt;
        matches!(&linked, Ok(Some(linked)) if linked.as_str() == "see \x1b[1m\x1b]8;;http://x\x1b\\here\x1b]8;;\x1b\\")
    );
}

#[test]
fn ansi_link_example(rt: HostRuntime) {
    let linked = "see \x1b[1mhere".ansi_link(rt.alloc(), (4, 8), "http://x");
    assert!(rt;
        matches!(&linked, Ok(Some(linked)) if linked.as_str() == "see \x1b[1m\x1b]8;;http://x\x1b\\here\x1b]8;;\x1b\\")
    );
    assert!(rt; matches!("here".ansi_link(rt.alloc(), (0, 4), "a\nb"), Ok(None)));
}

#[test]
fn style_of_example(rt: HostRuntime) {
    let style = style_of(rt.alloc(), "1;31");
    assert!(rt;
        matches!(&style, Ok(Some(style)) if style.is_bold() && style.foreground() == Some(Color::Red))
    );
}

#[test]
fn codes_of_example(rt: HostRuntime) -> Result<(), Fail> {
    let orange = style_of(rt.alloc(), "38;5;208;1")?.ok_or("no codes")?;
    let codes = codes_of(rt.alloc(), &orange)?;
    assert!(rt; codes.as_str() == "1;38;5;208");
    Ok(())
}

#[test]
fn union_example(rt: HostRuntime) -> Result<(), Fail> {
    let bold_red = style_of(rt.alloc(), "1;31")?.ok_or("no codes")?;
    let blue = style_of(rt.alloc(), "34")?.ok_or("no codes")?;
    let both = union(&bold_red, &blue);
    assert!(rt; both.is_bold() && both.foreground() == Some(Color::Blue));
    Ok(())
}

#[test]
fn difference_example(rt: HostRuntime) -> Result<(), Fail> {
    let bold_red = style_of(rt.alloc(), "1;31")?.ok_or("no codes")?;
    let red = style_of(rt.alloc(), "31")?.ok_or("no codes")?;
    let left = difference(&bold_red, &red);
    assert!(rt; left.is_bold() && left.foreground().is_none());
    Ok(())
}
