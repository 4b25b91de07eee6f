//! Which requests `Refusing` refuses. No contract says it.
use super::expect;
use refusing::Refusing;
use std::alloc::{AllocError, Allocator, Global};
use std::process::Abort;
use std::test::Fail;

#[test]
fn refuses_the_first_request(rt: HostRuntime) {
    let heap = Refusing::new(rt.alloc(), 0);
    let mut digits = Vec::new(&heap);
    expect(&rt, !heap.has_refused(), "an empty Vec takes no memory", 0);
    expect(&rt, digits.push(1u8).is_err(), "the first push", 0);
    expect(&rt, heap.has_refused(), "that was the first request", 0);
}

#[test]
fn refuses_a_growth(rt: HostRuntime) -> Result<(), Fail> {
    let heap = Refusing::new(rt.alloc(), 1);
    let mut digits = Vec::from_array(&heap, [1u8, 2])?;
    expect(&rt, heap.requests() == 1, "two digits are one request", 1);
    expect(&rt, !heap.has_refused(), "that was granted", 1);

    expect(
        &rt,
        digits.push(3).is_err(),
        "there is no room for a third",
        1,
    );
    expect(&rt, heap.requests() == 2, "the growth is a request", 1);
    expect(&rt, heap.has_refused(), "the growth was refused", 1);
    let stays = digits.as_slice() == [1, 2].as_slice();
    expect(&rt, stays, "what was there stays", 1);

    drop(digits);
    expect(&rt, heap.requests() == 2, "giving back is no request", 1);
    let is_refused = String::from_str(&heap, "text").is_err();
    expect(
        &rt,
        is_refused,
        "what is given back is not granted again",
        1,
    );
    Ok(())
}

// Pushes four bytes `pushes` times.
fn pushed<A: Allocator>(alloc: A, pushes: u64) -> Result<usize, AllocError> {
    let mut text = String::new(alloc);
    for _ in 0..pushes {
        text.push_str("text")?;
    }
    Ok(text.len())
}

#[test]
fn refuses_nothing_of_plenty(rt: HostRuntime) {
    let heap = Refusing::new(rt.alloc(), u64::MAX);
    let len = pushed(&heap, 100);
    expect(&rt, matches!(len, Ok(400)), "each push is there", u64::MAX);
    expect(
        &rt,
        heap.requests() > 1,
        "a String of 400 bytes has grown",
        u64::MAX,
    );
    expect(
        &rt,
        !heap.has_refused(),
        "each request was granted",
        u64::MAX,
    );
}

// Checks that a text is returned exactly if no request was refused.
fn expect_answer(rt: &impl Abort, alloc: Global, granted: u64) {
    let heap = Refusing::new(alloc, granted);
    let is_refused = String::from_str(&heap, "text").is_err();
    expect(rt, is_refused == heap.has_refused(), "an answer", granted);
}

#[test]
fn refuses_each_in_turn(rt: HostRuntime) {
    for granted in 0..10 {
        expect_answer(&rt, rt.alloc(), granted);
    }
}
