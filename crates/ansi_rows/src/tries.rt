//! A row's call, made in every possible way.
use crate::calls::Call;
use crate::check::Check;
use crate::columns::{ColumnCall, column_edits_of};
use crate::ranges::ranges_of;
use crate::rows::Row;
use crate::texts::{make_call, make_call_in};
use ansi_str::{AnsiStr, Edit};
use refusing::Refusing;
use std::alloc::Global;

/// Makes the call with an allocator that grants `granted` requests. Returns how many requests the
/// call made.
fn requests_of(check: &mut Check<'_>, call: &Call<'_>, granted: u64) -> u64 {
    let heap = Refusing::new(check.alloc, granted);
    make_call_in(check, &heap, call);
    heap.requests()
}

/// The greatest number of requests of a call that are refused in turn.
const MOST_REFUSED: u64 = 100;

/// Makes the call with an allocator that grants each request, and then with each request refused in
/// turn.
fn try_in(check: &mut Check<'_>, call: &Call<'_>) {
    check.begin("with each request granted");
    let requests = requests_of(check, call, u64::MAX);
    check.end();
    if check
        .row
        .takes_memory
        .is_some_and(|takes_memory| takes_memory != (requests > 0))
    {
        check.fail("whether it takes memory");
    }
    for granted in 0..requests.min(MOST_REFUSED) {
        check.begin("with a request refused");
        requests_of(check, call, granted);
        check.end_refused();
    }
}

fn try_of<T: AnsiStr>(check: &mut Check<'_>, way: &'static str, text: &T, call: &Call<'_>) {
    check.begin(way);
    make_call(check, text, call);
    check.end();
}

/// Makes the call on a `String`, which has to stay unchanged.
fn try_owned(check: &mut Check<'_>, call: &Call<'_>) {
    match String::from_str(check.alloc, check.row.text) {
        Ok(owned) => {
            try_of(check, "of a `String`", &owned, call);
            if owned.as_str() != check.row.text {
                check.fail("the caller's text");
            }
        }
        Err(_) => check.fail("out of memory"),
    }
}

/// Makes the call on a `&str`, on a `String`, and with an allocator.
fn try_call(check: &mut Check<'_>, call: &Call<'_>) {
    if call.is_of_trait() {
        let text = check.row.text;
        try_of(check, "of a `&str`", &text, call);
        try_owned(check, call);
    }
    try_in(check, call);
}

/// Cuts the text between two positions, with every range that has these ends.
fn try_ranges(check: &mut Check<'_>, start: usize, end: usize) {
    for range in &ranges_of(start, end) {
        if let Some(range) = *range {
            try_call(check, &Call::Get(range));
            try_call(check, &Call::Cut(range));
        }
    }
}

/// An edit of a row: its kind, two numbers and a text. An unknown kind becomes a range that every
/// text refuses.
fn edit_of<'r>(row: &Row<'r>, place: usize) -> Option<Edit<'r>> {
    let start = row.number(place.saturating_add(1))?;
    let end = row.number(place.saturating_add(2))?;
    let text = row.argument(place.saturating_add(3))?;
    Some(match row.number(place)? {
        0 => Edit::Cut {
            start,
            end: Some(end),
        },
        1 => Edit::Left(start),
        2 => Edit::Right(start),
        3 => Edit::Part {
            pat: text,
            index: start,
        },
        4 => Edit::Prefix(text),
        5 => Edit::Suffix(text),
        6 => Edit::Trim,
        _ => Edit::Cut {
            start: 1,
            end: Some(0),
        },
    })
}

/// The edits of a row, each of four fields.
fn edits_of<'r>(alloc: Global, row: &Row<'r>) -> Option<Vec<Edit<'r>>> {
    let mut edits = Vec::new(alloc);
    for place in (0..row.more.len()).step_by(4) {
        edits.push(edit_of(row, place)?).ok()?;
    }
    Some(edits)
}

/// Applies the edits of a row. If they are refused, the refusal has to be that of the last edit,
/// which must not allocate.
fn try_edits<'e>(check: &mut Check<'_>, edits: &'e [Edit<'e>]) {
    try_in(check, &Call::Edits(edits));
    if let Some((_, before)) = edits.split_last()
        && check.row.status == "2"
    {
        let mut unchecked = Check::new(check.alloc, check.row);
        let requests = requests_of(&mut unchecked, &Call::Edits(edits), u64::MAX);
        if requests_of(&mut unchecked, &Call::Edits(before), u64::MAX) != requests {
            check.fail("memory for an edit that is refused");
        }
    }
}

/// Makes the call of a row in each way. `None` if there is no such call.
pub fn try_row(check: &mut Check<'_>) -> Option<()> {
    let row = check.row;
    match row.call {
        "cut" => try_ranges(check, row.number(0)?, row.number(1)?),
        "edit" => try_edits(check, edits_of(check.alloc, &row)?.as_slice()),
        // (an edit that is refused can't be made here)
        "edit_columns" if row.status == "2" => {}
        "edit_columns" => {
            let edits = column_edits_of(check.alloc, &row)?;
            try_call(
                check,
                &Call::Columns(ColumnCall::EditColumns(edits.as_slice())),
            );
        }
        _ => try_call(check, &Call::new(&row)?),
    }
    Some(())
}
