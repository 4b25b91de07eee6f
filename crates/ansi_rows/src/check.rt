//! The results of a row's call, compared with the row as they arrive.
use crate::rows::Row;
use std::alloc::{AllocError, Allocator, Global};
use std::borrow::CowStr;

/// A row whose call is made in several ways, one after another.
#[derive(Drop)]
pub struct Check<'r> {
    pub alloc: Global,
    pub row: Row<'r>,
    /// The current way to make the call.
    way: &'static str,
    /// Whether the call returned an `Err`.
    pub is_err: bool,
    /// The status of the results so far, as a row writes it.
    status: &'static str,
    /// The results of the row that the call hasn't returned yet.
    borrows: &'r str,
    gives: &'r [String],
    /// The first difference from the row.
    pub fault: Option<String>,
}

impl<'r> Check<'r> {
    pub fn new(alloc: Global, row: Row<'r>) -> Self {
        Check {
            alloc,
            row,
            way: "",
            is_err: false,
            status: "0",
            borrows: row.borrows,
            gives: row.gives,
            fault: None,
        }
    }

    /// Starts over for another way to make the call.
    pub fn begin(&mut self, way: &'static str) {
        self.way = way;
        self.is_err = false;
        self.status = "0";
        self.borrows = self.row.borrows;
        self.gives = self.row.gives;
    }

    /// Records a difference from the row, unless one is recorded already.
    pub fn fail(&mut self, found: &str) {
        if self.fault.is_none() {
            let fault = format!(in self.alloc; "{}: {found:?}", self.way);
            self.fault = Some(fault.unwrap_or(String::new(self.alloc)));
        }
    }

    /// The call returned a text or a number.
    pub fn text(&mut self, text: &str) {
        match self.gives.split_first() {
            Some((given, rest)) if given.as_str() == text => self.gives = rest,
            _ => self.fail(text),
        }
    }

    /// The call returned a value that was formatted, which must not run out of memory.
    pub fn written(&mut self, written: Result<String, AllocError>) {
        match written {
            Ok(text) => self.text(text.as_str()),
            Err(_) => self.fail("out of memory"),
        }
    }

    /// The call returned a text that is a borrow or is owned.
    pub fn borrow(&mut self, is_borrow: bool) {
        if self.row.takes_memory.is_none() {
            return;
        }
        let letter = if is_borrow { "b" } else { "o" };
        match self.borrows.strip_prefix(letter) {
            Some(rest) => self.borrows = rest,
            None => self.fail(letter),
        }
    }

    /// The call returned `count` texts.
    pub fn count(&mut self, count: usize) {
        if self.row.is_count && !self.is_err {
            self.written(count.to_string(self.alloc));
        }
    }

    /// The call returned no value.
    pub fn none(&mut self, status: &'static str) {
        self.status = status;
    }

    /// The call returned a number, or that there is none.
    pub fn number_or_none(&mut self, returned: Option<usize>) {
        match returned {
            Some(number) => self.written(number.to_string(self.alloc)),
            None => self.none("1"),
        }
    }

    /// The call returned an interval, or that there is none.
    pub fn interval(&mut self, number_or_none: Option<(usize, usize)>) {
        match number_or_none {
            Some((start, end)) => self.written(format!(in self.alloc; "{start},{end}")),
            None => self.none("1"),
        }
    }

    /// The call returned the result of a test. A row has 0 if the test holds.
    pub fn test(&mut self, is_so: bool) {
        self.number_or_none(is_so.then_some(0));
    }

    fn cow<A: Allocator>(&mut self, text: &CowStr<'_, A>) {
        self.borrow(matches!(text, CowStr::Borrowed(_)));
        if !self.row.is_count {
            self.text(text.as_str());
        }
    }

    /// The result of a call that returns a text.
    pub fn text_or_err<A: Allocator>(&mut self, answer: Result<CowStr<'_, A>, AllocError>) {
        match answer {
            Ok(text) => self.cow(&text),
            Err(_) => self.is_err = true,
        }
    }

    /// The next text of an iterator. Returns whether there was one; an `Err` counts as none.
    pub fn next_text<A: Allocator>(
        &mut self,
        next: Option<Result<CowStr<'_, A>, AllocError>>,
    ) -> bool {
        match next {
            Some(text) => self.text_or_err(text),
            None => return false,
        }
        !self.is_err
    }

    /// The iterator was asked again after its end.
    pub fn end_of_texts(&mut self, is_none: bool) {
        if !is_none {
            self.fail("a text after the end");
        }
    }

    /// The result of a call that may return a text.
    pub fn option_or_err<A: Allocator>(
        &mut self,
        answer: Result<Option<CowStr<'_, A>>, AllocError>,
        none: &'static str,
    ) {
        match answer {
            Ok(Some(text)) => self.cow(&text),
            Ok(None) => self.none(none),
            Err(_) => self.is_err = true,
        }
    }

    /// The result of a call that returns two texts.
    pub fn sides_or_err<A: Allocator>(
        &mut self,
        answer: Result<(CowStr<'_, A>, CowStr<'_, A>), AllocError>,
    ) {
        match answer {
            Ok((left, right)) => {
                self.cow(&left);
                self.cow(&right);
            }
            Err(_) => self.is_err = true,
        }
    }

    /// The call is complete. Its results have to be all that the row has.
    pub fn end(&mut self) {
        if self.is_err || self.status != self.row.status {
            self.fail(if self.is_err { "an error" } else { self.status });
        }
        if !self.borrows.is_empty() || !self.gives.is_empty() {
            self.fail("too little");
        }
    }

    /// The call is complete, and a request was refused. It has to be an `Err`; the results before
    /// it have to agree with the row.
    pub fn end_refused(&mut self) {
        if !self.is_err {
            self.fail("no error");
        }
    }
}
