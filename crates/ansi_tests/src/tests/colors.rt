//! The names of colors.
use crate::tests::expect;
use ansi_str::Color;
use ansi_str::ansitok::AnsiColor;
use std::cmp::Ordering;
use std::fmt::Debug;
use std::process::Abort;

/// The codes of a color of the sixteen as a foreground and as a background, and its name.
static NAMED: [(u8, u8, Color); 16] = [
    (30, 40, Color::Black),
    (31, 41, Color::Red),
    (32, 42, Color::Green),
    (33, 43, Color::Yellow),
    (34, 44, Color::Blue),
    (35, 45, Color::Magenta),
    (36, 46, Color::Cyan),
    (37, 47, Color::White),
    (90, 100, Color::BrightBlack),
    (91, 101, Color::BrightRed),
    (92, 102, Color::BrightGreen),
    (93, 103, Color::BrightYellow),
    (94, 104, Color::BrightBlue),
    (95, 105, Color::BrightMagenta),
    (96, 106, Color::BrightCyan),
    (97, 107, Color::BrightWhite),
];

/// Colors without a name, and the colors that they are read as.
static OTHERS: [(AnsiColor, Color); 3] = [
    (AnsiColor::Bit4(50), Color::Fixed(50)),
    (AnsiColor::Bit8(1), Color::Fixed(1)),
    (AnsiColor::Bit24 { r: 1, g: 2, b: 3 }, Color::Rgb(1, 2, 3)),
];

fn expect_color(rt: &impl Abort, color: AnsiColor, want: Color) {
    expect(rt, Color::from(color) == want, "the color", color);
}

#[test]
fn colors_are_named(rt: HostRuntime) {
    for (foreground, background, want) in &NAMED {
        expect_color(&rt, AnsiColor::Bit4(*foreground), *want);
        expect_color(&rt, AnsiColor::Bit4(*background), *want);
    }
    for (color, want) in &OTHERS {
        expect_color(&rt, *color, *want);
    }
}

/// Colors in the order in which they compare.
static ORDER: [Color; 22] = [
    Color::Black,
    Color::BrightBlack,
    Color::Red,
    Color::BrightRed,
    Color::Green,
    Color::BrightGreen,
    Color::Yellow,
    Color::BrightYellow,
    Color::Blue,
    Color::BrightBlue,
    Color::Purple,
    Color::BrightPurple,
    Color::Magenta,
    Color::BrightMagenta,
    Color::Cyan,
    Color::BrightCyan,
    Color::White,
    Color::BrightWhite,
    Color::Fixed(0),
    Color::Fixed(255),
    Color::Rgb(0, 255, 255),
    Color::Rgb(1, 0, 0),
];

/// Colors as sequences write them, in the order in which they compare.
static WRITTEN: [AnsiColor; 5] = [
    AnsiColor::Bit4(255),
    AnsiColor::Bit8(0),
    AnsiColor::Bit24 { r: 0, g: 0, b: 1 },
    AnsiColor::Bit24 { r: 0, g: 1, b: 0 },
    AnsiColor::Bit24 { r: 1, g: 0, b: 0 },
];

/// Checks that two colors compare as expected, and that they are equal exactly if that is `Equal`.
fn expect_ordering<C: Ord + Debug>(rt: &impl Abort, color: &C, other: &C, want: Ordering) {
    let colors = (color, other);
    expect(rt, color.cmp(other) == want, "the order", colors);
    let are_same = color == other;
    expect(
        rt,
        are_same == (want == Ordering::Equal),
        "equality",
        colors,
    );
}

/// Compares a color with each color of the list, in which it has this index.
fn expect_order<C: Ord + Debug>(rt: &impl Abort, order: &[C], color: &C, index: usize) {
    for (other_index, other) in order.iter().enumerate() {
        expect_ordering(rt, color, other, index.cmp(&other_index));
    }
}

#[test]
fn colors_are_ordered(rt: HostRuntime) {
    for (index, color) in ORDER.iter().enumerate() {
        expect_order(&rt, &ORDER, color, index);
    }
    for (index, color) in WRITTEN.iter().enumerate() {
        expect_order(&rt, &WRITTEN, color, index);
    }
}
