//! The texts that the jobs are done on.
ghost use Rattle.std.specs.Prelude.{◌≤◌};

use crate::random::Random;
use std::alloc::{AllocError, Global};
use std::fmt::Write;

static WORDS: [&str; 32] = [
    "field",
    "owned",
    "lifetime",
    "moved",
    "closure",
    "trait",
    "bound",
    "match",
    "arm",
    "pattern",
    "cast",
    "slice",
    "index",
    "loop",
    "shadowed",
    "mutable",
    "borrowed",
    "type",
    "in",
    "the",
    "of",
    "a",
    "connection",
    "accepted",
    "from",
    "request",
    "finished",
    "retry",
    "is",
    "not",
    "worker",
    "disk",
];

static JAPANESE: [&str; 16] = [
    "所有者",
    "寿命の長さ",
    "移動した値",
    "閉包",
    "特性",
    "境界の検査",
    "照合",
    "模様",
    "切片",
    "添字の範囲",
    "参照",
    "ファイル",
    "を開く",
    "ことが",
    "できません",
    "。",
];

static FOREIGN: [&str; 12] = [
    "πεδίο",
    "χρόνος",
    "σφάλμα",
    "замок",
    "поле",
    "ошибка",
    "образец",
    "größe",
    "naïve",
    "字段",
    "错误",
    "모듈",
];

static EMOJI: [&str; 10] = [
    "✅",
    "🚀",
    "👩‍👩‍👧‍👦",
    "🇯🇵",
    "👍🏽",
    "❤️",
    "e\u{301}",
    "🔥",
    "⚠️",
    "한글",
];

static COLORS: [&str; 12] = [
    "\x1b[31m",
    "\x1b[32m",
    "\x1b[33m",
    "\x1b[34m",
    "\x1b[36m",
    "\x1b[91m",
    "\x1b[1;31m",
    "\x1b[2;37m",
    "\x1b[38;5;208m",
    "\x1b[38;5;14m",
    "\x1b[38;2;97;175;239m",
    "\x1b[38;2;229;192;123m",
];

static CONTROLS: [&str; 6] = [
    "\x1b[2K\r",
    "\x1b[1A",
    "\x07",
    "\x1b[?25l",
    "\x08",
    "\x1b[10;4H",
];

static OPENINGS: [&str; 6] = ["\x1b]", "\x1b]x", "\x1b]2;", "\x1b]8;;", "\x1b[31", "\x1b"];

/// Makes texts. Each call of a method makes another.
#[derive(Drop)]
pub(crate) struct Texts {
    random: Random,
    alloc: Global,
}

impl Texts {
    pub(crate) fn new(alloc: Global, seed: u32) -> Texts {
        Texts {
            random: Random::new(seed),
            alloc,
        }
    }

    pub(crate) fn below(&mut self, limit: usize) -> usize
        ensures { result ≤ limit }
    {
        self.random.below(limit)
    }

    /// A cell of a table: 3 to 40 bytes.
    pub(crate) fn cell(&mut self) -> Result<String, AllocError> {
        let mut out = String::with_capacity(self.alloc, 48)?;
        match self.random.below(20) {
            0..=6 => {
                out.push_str(self.random.pick(&COLORS[..8]))?;
                let count = 1 + self.random.below(2);
                self.push_words(&mut out, &WORDS, count)?;
                out.push_str("\x1b[39m")?;
            }
            7..=10 => {
                let whole = self.random.below(1_000_000);
                let part = self.random.below(100);
                write!(out, "{whole}.{part:02}")?;
            }
            11 | 12 => self.push_path(&mut out)?,
            13 | 14 => {
                out.push_str("\x1b[1m")?;
                self.push_words(&mut out, &WORDS, 1)?;
                out.push_str("\x1b[0m ")?;
                self.push_words(&mut out, &WORDS, 1)?;
            }
            15 => {
                if self.random.below(2) == 0 {
                    out.push_str(self.random.pick(&EMOJI))?;
                    out.push(' ')?;
                    self.push_words(&mut out, &WORDS, 1)?;
                } else {
                    out.push_str(self.random.pick(&JAPANESE))?;
                    out.push_str(self.random.pick(&JAPANESE))?;
                }
            }
            _ => {
                let count = 1 + self.random.below(5);
                self.push_words(&mut out, &WORDS, count)?;
            }
        }
        Ok(out)
    }

    /// A line of a log, of 20 to 200 bytes, without its end. Half of the lines are plain.
    pub(crate) fn log_line(&mut self) -> Result<String, AllocError> {
        let mut out = String::with_capacity(self.alloc, 256)?;
        match self.random.below(24) {
            0..=11 => {
                let count = 4 + self.random.below(16);
                self.push_words(&mut out, &WORDS, count)?;
            }
            12..=15 => {
                let number = self.random.below(1000);
                write!(
                    out,
                    "\x1b[0m\x1b[1m\x1b[38;5;11mwarning[W{number:03}]\x1b[0m\x1b[1m: "
                )?;
                let count = 3 + self.random.below(5);
                self.push_words(&mut out, &WORDS, count)?;
                out.push_str("\x1b[0m")?;
            }
            16 | 17 => {
                out.push_str("   \x1b[0m\x1b[1m\x1b[38;5;14m-->\x1b[0m ")?;
                self.push_path(&mut out)?;
            }
            18..=20 => {
                let minute = self.random.below(60);
                let second = self.random.below(60);
                write!(out, "\x1b[2m2026-11-26T10:{minute:02}:{second:02}Z\x1b[0m ")?;
                out.push_str(
                    self.random
                        .pick(&["\x1b[32m INFO\x1b[0m ", "\x1b[33m WARN\x1b[0m "]),
                )?;
                out.push_str(self.random.pick(&COLORS))?;
                self.push_words(&mut out, &WORDS, 1)?;
                out.push_str("\x1b[39m: ")?;
                let count = 3 + self.random.below(8);
                self.push_words(&mut out, &WORDS, count)?;
            }
            21 => {
                out.push_str(self.random.pick(&["\x1b[31m-    ", "\x1b[32m+    "]))?;
                let count = 3 + self.random.below(6);
                self.push_words(&mut out, &WORDS, count)?;
            }
            22 => {
                out.push_str(self.random.pick(&COLORS))?;
                let count = 2 + self.random.below(5);
                self.push_words(&mut out, &FOREIGN, count)?;
                out.push_str("\x1b[0m")?;
            }
            _ => {
                out.push_str(self.random.pick(&CONTROLS))?;
                let count = 3 + self.random.below(8);
                self.push_words(&mut out, &WORDS, count)?;
            }
        }
        Ok(out)
    }

    /// A log of 256 KiB and a line at most. It has 512 different lines, since lines recur.
    pub(crate) fn log(&mut self) -> Result<Vec<u8>, AllocError> {
        let mut lines = Vec::new(self.alloc);
        for _ in 0..512 {
            lines.push(self.log_line()?)?;
        }
        let mut out = Vec::with_capacity(self.alloc, 263_000)?;
        for _ in 0..4096 {
            if out.len() < 262_144 {
                let index = self.random.below(512);
                if let Some(line) = lines.get(index) {
                    out.extend_from_slice(line.as_bytes())?;
                    out.push(b'\n')?;
                }
            }
        }
        Ok(out)
    }

    /// A paragraph of 100 to 800 bytes: one word in ten is colored, and some have links or are
    /// Japanese.
    pub(crate) fn paragraph(&mut self) -> Result<String, AllocError> {
        let mut out = String::with_capacity(self.alloc, 2048)?;
        let count = 20 + self.random.below(90);
        for _ in 0..count {
            match self.random.below(40) {
                0..=3 => {
                    out.push_str(self.random.pick(&COLORS))?;
                    self.push_words(&mut out, &WORDS, 1)?;
                    out.push_str("\x1b[0m")?;
                }
                4 => {
                    out.push_str("\x1b]8;;https://example.org/")?;
                    self.push_words(&mut out, &WORDS, 1)?;
                    out.push_str("\x1b\\")?;
                    self.push_words(&mut out, &WORDS, 2)?;
                    out.push_str("\x1b]8;;\x1b\\")?;
                }
                5 => self.push_words(&mut out, &JAPANESE, 2)?,
                _ => self.push_words(&mut out, &WORDS, 1)?,
            }
            out.push(' ')?;
        }
        Ok(out)
    }

    /// A line of a highlighter: a color for each of its words, 256 and true colors among them.
    pub(crate) fn highlighted(&mut self) -> Result<String, AllocError> {
        let mut out = String::with_capacity(self.alloc, 512)?;
        let count = 4 + self.random.below(9);
        for _ in 0..count {
            out.push_str(self.random.pick(&COLORS))?;
            self.push_words(&mut out, &WORDS, 1)?;
            out.push_str("\x1b[39m ")?;
        }
        Ok(out)
    }

    /// A line with each character in a true color of its own.
    pub(crate) fn rainbow(&mut self) -> Result<String, AllocError> {
        let mut plain = String::new(self.alloc);
        self.push_words(&mut plain, &WORDS, 8)?;
        let mut out = String::with_capacity(self.alloc, 2048)?;
        for character in plain.as_str().chars() {
            let (red, green, blue) = (self.below(256), self.below(256), self.below(256));
            write!(out, "\x1b[38;2;{red};{green};{blue}m{character}")?;
        }
        out.push_str("\x1b[0m")?;
        Ok(out)
    }

    /// A line in Japanese, half of its words in a color.
    pub(crate) fn japanese(&mut self) -> Result<String, AllocError> {
        let mut out = String::with_capacity(self.alloc, 512)?;
        for _ in 0..10 {
            if self.random.below(2) == 0 {
                out.push_str(self.random.pick(&COLORS))?;
                out.push_str(self.random.pick(&JAPANESE))?;
                out.push_str("\x1b[39m")?;
            } else {
                out.push_str(self.random.pick(&JAPANESE))?;
            }
        }
        Ok(out)
    }

    /// A line of emoji and combining marks.
    pub(crate) fn emoji(&mut self) -> Result<String, AllocError> {
        let mut out = String::with_capacity(self.alloc, 512)?;
        self.push_words(&mut out, &EMOJI, 16)?;
        Ok(out)
    }

    /// Openings of commands that nothing ends, among words.
    pub(crate) fn unfinished(&mut self, count: usize) -> Result<String, AllocError> {
        let mut out = String::with_capacity(self.alloc, 1024)?;
        for _ in 0..count {
            out.push_str(self.random.pick(&OPENINGS))?;
            if self.random.below(3) == 0 {
                self.push_words(&mut out, &WORDS, 1)?;
            }
        }
        Ok(out)
    }

    /// A title that nothing ends.
    pub(crate) fn title(&mut self) -> Result<String, AllocError> {
        let mut out = String::from_str(self.alloc, "ab\x1b]2;")?;
        self.push_words(&mut out, &WORDS, 100)?;
        Ok(out)
    }

    /// Hundreds of parts of one byte, a few of them colored.
    pub(crate) fn bytes(&mut self) -> Result<String, AllocError> {
        let mut out = String::with_capacity(self.alloc, 2048)?;
        for _ in 0..300 {
            if self.random.below(10) == 0 {
                out.push_str(self.random.pick(&COLORS))?;
            }
            out.push_str(self.random.pick(&["a ", "b ", "c ", "d "]))?;
        }
        Ok(out)
    }

    /// A log as one line.
    pub(crate) fn one_line(&mut self, lines: usize) -> Result<String, AllocError> {
        let mut out = String::with_capacity(self.alloc, 131072)?;
        for _ in 0..lines {
            out.push_str(self.log_line()?.as_str())?;
            out.push(' ')?;
        }
        Ok(out)
    }

    fn push_words(
        &mut self,
        out: &mut String,
        words: &[&'static str],
        count: usize,
    ) -> Result<(), AllocError> {
        for index in 0..count {
            if index > 0 {
                out.push(' ')?;
            }
            out.push_str(self.random.pick(words))?;
        }
        Ok(())
    }

    fn push_path(&mut self, out: &mut String) -> Result<(), AllocError> {
        out.push_str("crates/")?;
        out.push_str(self.random.pick(&WORDS))?;
        out.push('/')?;
        out.push_str(self.random.pick(&WORDS))?;
        let line = self.random.below(1000);
        write!(out, ".rs:{line}")?;
        Ok(())
    }
}
