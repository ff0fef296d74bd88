//! Runs of calls of a history with their answers and both lists, and what becomes of a step that `push` drops.
use sg_undo::History;
use std::rc::Rc;

#[derive(Clone, Copy, Debug)]
enum Call {
    Push(u32),
    Back,
    Forth,
    DropForth,
}

/// A call, the step that it hands over, whether it moved one, and the past and the future after it.
type Row = (Call, Option<u32>, bool, &'static [u32], &'static [u32]);

/// Of a history with room for three.
const ROWS: [Row; 16] = [
    (Call::Back, None, false, &[], &[]),
    (Call::Forth, None, false, &[], &[]),
    (Call::DropForth, None, false, &[], &[]),
    (Call::Push(1), None, false, &[1], &[]),
    (Call::Push(2), None, false, &[2, 1], &[]),
    (Call::Push(3), None, false, &[3, 2, 1], &[]),
    (Call::Push(4), Some(1), false, &[4, 3, 2], &[]),
    (Call::Back, None, true, &[3, 2], &[4]),
    (Call::Back, None, true, &[2], &[3, 4]),
    (Call::Forth, None, true, &[3, 2], &[4]),
    (Call::Push(5), None, false, &[5, 3, 2], &[]),
    (Call::Back, None, true, &[3, 2], &[5]),
    (Call::Back, None, true, &[2], &[3, 5]),
    (Call::Back, None, true, &[], &[2, 3, 5]),
    (Call::DropForth, Some(2), false, &[], &[3, 5]),
    (Call::Push(6), None, false, &[6], &[]),
];

/// Makes a call, and returns the step that it hands over and whether it moved one.
fn answer(history: &mut History<u32>, call: Call) -> (Option<u32>, bool) {
    match call {
        Call::Push(step) => (history.push(step), false),
        Call::Back => (None, history.back()),
        Call::Forth => (None, history.forth()),
        Call::DropForth => (history.drop_forth(), false),
    }
}

/// Whether the past and then the future are these steps, by a walk along both and back again.
fn has_lists(history: &mut History<u32>, past: &[u32], future: &[u32]) -> bool {
    let mut same = true;
    for step in past {
        same = same && history.peek_back().copied() == Some(*step) && history.back();
    }
    same = same && history.peek_back().is_none();
    for _ in past {
        same = same && history.forth();
    }
    for step in future {
        same = same && history.peek_forth().copied() == Some(*step) && history.forth();
    }
    same = same && history.peek_forth().is_none();
    for _ in future {
        same = same && history.back();
    }
    same
}

#[test]
fn runs_of_calls(rt: HostRuntime) {
    let mut history = History::with_capacity(rt.alloc(), 3).expect(&rt, "a history");
    for &(call, step, moved, past, future) in &ROWS {
        assert!(rt; answer(&mut history, call) == (step, moved), "{call:?}");
        assert!(rt; has_lists(&mut history, past, future), "{call:?}");
    }
}

#[test]
fn push_drops_the_future(rt: HostRuntime) {
    let step = Rc::new(rt.alloc(), 7u32).expect(&rt, "a step");
    let mut history = History::with_capacity(rt.alloc(), 256).expect(&rt, "a history");
    assert!(rt; history.push(step.clone().expect(&rt, "a step")).is_none());
    assert!(rt; history.back());
    assert_eq!(rt; Rc::strong_count(&step), 2);
    assert!(rt;
        history
            .push(Rc::new(rt.alloc(), 8u32).expect(&rt, "a step"))
            .is_none()
    );
    assert_eq!(rt; Rc::strong_count(&step), 1);
}

#[test]
fn steps_are_taken_and_put(rt: HostRuntime) {
    let mut history = History::with_capacity(rt.alloc(), 3).expect(&rt, "a history");
    history.put_back(1u32);
    history.put_back(2);
    history.put_forth(3);
    assert_eq!(rt; history.take_back(), Some(2));
    assert!(rt; has_lists(&mut history, &[1], &[3]));
    assert_eq!(rt; history.take_back(), Some(1));
    assert_eq!(rt; history.take_back(), None);
}
