//! The jobs. Each call of a method is one round.
use crate::digest::Digest;
use crate::texts::Texts;
use ansi_calls::answers::Answer;
use ansi_calls::columns::{fit, pad, slice, truncate, truncate_with, width};
use ansi_calls::edits::{EditStep, edit_text};
use ansi_calls::lines::{wrap, wrap_with};
use ansi_calls::lists::{ListAnswer, split};
use ansi_calls::safe::sanitize;
use ansi_calls::searches::{find, starts_with};
use ansi_calls::texts::{cut, strip, trim};
use ansi_io::fake_device::FakeDevice;
use ansi_restyle::AnsiRestyle;
use ansi_str::{AnsiStr, get_blocks};
use ansi_view_runs::runs::run;
use std::alloc::{AllocError, Global};
use std::fmt::Write;

// The numbers of kinds of edits, alignments, sides and policies, as callers of C write them.
const CUT: u32 = 0;

const PREFIX: u32 = 4;

const TRIM: u32 = 6;

const MIDDLE: u32 = 2;

const DROP: u32 = 0;

const KEEP_LINKS: u32 = 1;

const ROOM: usize = 1_048_576;

/// What is done so far: the texts to come, the digest, and the room for results.
#[derive(Drop)]
pub(crate) struct Bench {
    alloc: Global,
    texts: Texts,
    digest: Digest,
    buffer: Vec<u8>,
    ends: Vec<usize>,
}

impl Bench {
    pub(crate) fn new(alloc: Global, seed: u32) -> Result<Bench, AllocError> {
        Ok(Bench {
            alloc,
            texts: Texts::new(alloc, seed),
            digest: Digest::new(),
            buffer: vec![in alloc; 0u8; ROOM]?,
            ends: vec![in alloc; 0usize; 4096]?,
        })
    }

    pub(crate) fn digest(&self) -> u64 {
        self.digest.value()
    }

    /// A round of each job.
    pub(crate) fn all(&mut self) -> Result<(), AllocError> {
        self.table()?;
        self.log()?;
        self.wrap()?;
        self.fields()?;
        self.blocks()?;
        self.awkward()?;
        self.marked()
    }

    /// A table: the width of each of 1,024 cells, and then each cell cut or filled to its column.
    pub(crate) fn table(&mut self) -> Result<(), AllocError> {
        let mut cells = Vec::new(self.alloc);
        for _ in 0..1024 {
            cells.push(self.texts.cell()?)?;
        }
        for cell in cells.iter() {
            let answer = width(cell.as_bytes());
            self.digest.add(answer.len);
        }
        for cell in cells.iter() {
            let bytes = cell.as_bytes();
            let columns = 12 + self.texts.below(8);
            let alignment = self.texts.below(3) as u32;
            if self.texts.below(4) > 0 {
                let answer = fit(
                    self.alloc,
                    bytes,
                    columns,
                    alignment,
                    "…".as_bytes(),
                    self.buffer.as_mut_slice(),
                );
                self.add(answer);
            } else {
                let cut = truncate_with(
                    self.alloc,
                    bytes,
                    columns,
                    "…".as_bytes(),
                    MIDDLE,
                    self.buffer.as_mut_slice(),
                );
                self.add(cut);
                let filled = pad(
                    self.alloc,
                    bytes,
                    columns,
                    alignment,
                    self.buffer.as_mut_slice(),
                );
                self.add(filled);
            }
        }
        Ok(())
    }

    /// Logs made safe and plain by the filter, and line by line.
    pub(crate) fn log(&mut self) -> Result<(), AllocError> {
        for _ in 0..4 {
            self.view("")?;
        }
        for _ in 0..2 {
            self.view("plain")?;
        }
        self.view("truncate:80")?;
        for _ in 0..2048 {
            let line = self.texts.log_line()?;
            let answer = sanitize(
                self.alloc,
                line.as_bytes(),
                DROP,
                KEEP_LINKS,
                self.buffer.as_mut_slice(),
            );
            self.add(answer);
            let answer = strip(self.alloc, line.as_bytes(), self.buffer.as_mut_slice());
            self.add(answer);
        }
        Ok(())
    }

    /// Paragraphs and the lines of logs, wrapped at 80 columns.
    pub(crate) fn wrap(&mut self) -> Result<(), AllocError> {
        for index in 0..256 {
            let text = self.texts.paragraph()?;
            let (buffer, ends) = (self.buffer.as_mut_slice(), self.ends.as_mut_slice());
            let answer = if index % 2 == 0 {
                wrap(self.alloc, text.as_bytes(), 80, buffer, ends)
            } else {
                wrap_with(self.alloc, text.as_bytes(), 80, b"* ", b"  ", buffer, ends)
            };
            self.add_list(answer);
        }
        self.view("wrap:80")
    }

    /// The lines of a log: their fields, the part on the screen, searches, and edits in turn.
    pub(crate) fn fields(&mut self) -> Result<(), AllocError> {
        for _ in 0..1024 {
            let line = self.texts.log_line()?;
            let text = line.as_bytes();
            let (buffer, ends) = (self.buffer.as_mut_slice(), self.ends.as_mut_slice());
            let answer = split(self.alloc, text, b" ", buffer, ends);
            self.add_list(answer);
            let (buffer, ends) = (self.buffer.as_mut_slice(), self.ends.as_mut_slice());
            let answer = split(self.alloc, text, b": ", buffer, ends);
            self.add_list(answer);
            let answer = cut(self.alloc, text, 4, 20, self.buffer.as_mut_slice());
            self.add(answer);
            let answer = slice(self.alloc, text, 4, 20, self.buffer.as_mut_slice());
            self.add(answer);
            let answer = find(text, b"refused");
            self.digest.add(answer.len);
            let answer = starts_with(text, b"warning");
            self.digest.add(answer.status as usize);
            let steps = [
                step(PREFIX, 0, 0, b"w"),
                step(CUT, 2, 60, b""),
                step(TRIM, 0, 0, b""),
            ];
            let answer = edit_text(self.alloc, text, &steps, self.buffer.as_mut_slice());
            self.add(answer);
            let answer = edit_text(self.alloc, text, &steps[1..], self.buffer.as_mut_slice());
            self.add(answer);
        }
        Ok(())
    }

    /// The blocks of logs and of a highlighter's lines, each with the start and the end of its
    /// style.
    pub(crate) fn blocks(&mut self) -> Result<(), AllocError> {
        for index in 0..2048 {
            let line = if index % 2 == 0 {
                self.texts.log_line()?
            } else {
                self.texts.highlighted()?
            };
            self.add_blocks(line.as_str())?;
        }
        Ok(())
    }

    /// Texts that are awkward, and real.
    pub(crate) fn awkward(&mut self) -> Result<(), AllocError> {
        for _ in 0..16 {
            let rainbow = self.texts.rainbow()?;
            self.show(rainbow.as_str());
            self.add_blocks(rainbow.as_str())?;
            let japanese = self.texts.japanese()?;
            self.show(japanese.as_str());
            let emoji = self.texts.emoji()?;
            self.show(emoji.as_str());
            let unfinished = self.texts.unfinished(40)?;
            self.show(unfinished.as_str());
            self.add_blocks(unfinished.as_str())?;
            let title = self.texts.title()?;
            self.show(title.as_str());
            let bytes = self.texts.bytes()?;
            let (buffer, ends) = (self.buffer.as_mut_slice(), self.ends.as_mut_slice());
            let answer = split(self.alloc, bytes.as_bytes(), b" ", buffer, ends);
            self.add_list(answer);
        }
        let line = self.texts.one_line(1024)?;
        self.show(line.as_str());
        self.add_blocks(line.as_str())
    }

    /// A search marked in the lines of a log, and in a log as one line; and the HTML of what was
    /// marked.
    pub(crate) fn marked(&mut self) -> Result<(), AllocError> {
        for _ in 0..1024 {
            let line = self.texts.log_line()?;
            self.add_marked(line.as_str())?;
        }
        let line = self.texts.one_line(1024)?;
        self.add_marked(line.as_str())
    }

    /// The HTML of a text in which the matches of a word are marked.
    fn add_marked(&mut self, text: &str) -> Result<(), AllocError> {
        if let Some(marked) = text.ansi_mark(self.alloc, "in", "7")? {
            self.digest.add_bytes(marked.as_str().as_bytes());
            self.add_html(marked.as_str())?;
        }
        Ok(())
    }

    /// The blocks of a text as HTML, with what is bold and what is inverse.
    fn add_html(&mut self, text: &str) -> Result<(), AllocError> {
        let mut out = String::with_capacity(self.alloc, 1024)?;
        for block in get_blocks(self.alloc, text) {
            let block = block?;
            let (is_bold, is_inverse) = (block.style().is_bold(), block.style().is_inverse());
            out.push_str(if is_bold { "<b>" } else { "" })?;
            out.push_str(if is_inverse { "<mark>" } else { "" })?;
            push_escaped(&mut out, block.text().ansi_strip(self.alloc)?.as_str())?;
            out.push_str(if is_inverse { "</mark>" } else { "" })?;
            out.push_str(if is_bold { "</b>" } else { "" })?;
        }
        self.digest.add_bytes(out.as_bytes());
        Ok(())
    }

    /// A text measured, cut, wrapped, sanitized, stripped and trimmed.
    fn show(&mut self, text: &str) {
        let text = text.as_bytes();
        let answer = width(text);
        self.digest.add(answer.len);
        let answer = truncate(self.alloc, text, 40, b"...", self.buffer.as_mut_slice());
        self.add(answer);
        let answer = slice(self.alloc, text, 4, 20, self.buffer.as_mut_slice());
        self.add(answer);
        let (buffer, ends) = (self.buffer.as_mut_slice(), self.ends.as_mut_slice());
        let answer = wrap(self.alloc, text, 80, buffer, ends);
        self.add_list(answer);
        let answer = sanitize(
            self.alloc,
            text,
            DROP,
            KEEP_LINKS,
            self.buffer.as_mut_slice(),
        );
        self.add(answer);
        let answer = strip(self.alloc, text, self.buffer.as_mut_slice());
        self.add(answer);
        let answer = trim(self.alloc, text, self.buffer.as_mut_slice());
        self.add(answer);
        let answer = find(text, b"refused");
        self.digest.add(answer.len);
    }

    /// The blocks of a text, each between the start and the end of its style.
    fn add_blocks(&mut self, text: &str) -> Result<(), AllocError> {
        let mut out = String::with_capacity(self.alloc, 1024)?;
        for block in get_blocks(self.alloc, text) {
            let block = block?;
            write!(out, "{}", block.style().start())?;
            out.push_str(block.text())?;
            write!(out, "{}", block.style().end())?;
        }
        self.digest.add_bytes(out.as_bytes());
        Ok(())
    }

    /// A log through the filter, with one word, or without if it is empty.
    fn view(&mut self, word: &str) -> Result<(), AllocError> {
        let log = self.texts.log()?;
        let mut words = Vec::new(self.alloc);
        if !word.is_empty() {
            words.push(String::from_str(self.alloc, word)?)?;
        }
        let mut input = FakeDevice::of(self.alloc, log);
        let mut output = FakeDevice::with_room(self.alloc, ROOM)?;
        let mut faults = FakeDevice::with_room(self.alloc, 100)?;
        let status = run(
            self.alloc,
            words.as_slice(),
            &mut input,
            &mut output,
            &mut faults,
        );
        self.digest.add(status as usize);
        self.digest.add_bytes(output.bytes());
        Ok(())
    }

    /// The result of a call, with what it wrote.
    fn add(&mut self, answer: Answer) {
        self.digest.add(answer.status as usize);
        let written = answer.len.min(self.buffer.len());
        self.digest.add_bytes(&self.buffer[..written]);
    }

    /// The result of a call that makes a list, with what it wrote.
    fn add_list(&mut self, answer: ListAnswer) {
        self.digest.add(answer.status as usize);
        let written = answer.len.min(self.buffer.len());
        self.digest.add_bytes(&self.buffer[..written]);
        let count = answer.count.min(self.ends.len());
        for end in self.ends[..count].iter() {
            self.digest.add(*end);
        }
    }
}

/// Appends a text as HTML.
fn push_escaped(out: &mut String, text: &str) -> Result<(), AllocError> {
    for character in text.chars() {
        match character {
            '&' => out.push_str("&amp;")?,
            '<' => out.push_str("&lt;")?,
            '>' => out.push_str("&gt;")?,
            _ => out.push(character)?,
        }
    }
    Ok(())
}

fn step<'a>(kind: u32, first: usize, second: usize, pattern: &'a [u8]) -> EditStep<'a> {
    EditStep {
        kind,
        first,
        second,
        pattern,
    }
}
