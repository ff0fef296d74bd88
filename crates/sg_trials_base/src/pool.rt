//! Values with their sameness, their copies and their limits, and the numbers that a pool gives them.
use sg_kinds::ids::OpId;
use sg_kinds::marks::FaultKind;
use sg_kinds::text::Text;
use sg_kinds::value::Value;
use sg_pool::entry::PoolEntry;
use sg_pool::pool::{Pool, PoolFault};
use std::process::Abort;

/// A text of so many bytes.
fn text(rt: &(impl Abort + AllocGlobal), count: usize) -> Text {
    Text::new(vec![in rt.alloc(); b'a'; count].expect(rt, "a text"))
}

/// The tree of operator 1 over a number and a text.
fn pair(rt: &(impl Abort + AllocGlobal), number: i64) -> Value {
    let mut kids = Vec::new(rt.alloc());
    kids.push(Value::number(number)).expect(rt, "a list");
    kids.push(Value::text(text(rt, 2))).expect(rt, "a list");
    Value::tree(OpId { number: 1 }, kids)
}

/// Different values: two numbers, two truth values, two texts, two faults, two trees, a leaf and a tree that look
/// alike.
fn values(rt: &(impl Abort + AllocGlobal)) -> [Value; 10] {
    [
        Value::number(0),
        Value::number(1),
        Value::truth(false),
        Value::truth(true),
        Value::text(text(rt, 0)),
        Value::text(text(rt, 1)),
        Value::fault(FaultKind::Fuel),
        Value::fault(FaultKind::Convert),
        pair(rt, 4),
        pair(rt, 5),
    ]
}

#[test]
fn a_value_is_the_same_as_its_copies_alone(rt: HostRuntime) {
    let all = values(&rt);
    let mut pool = Pool::new(rt.alloc()).expect(&rt, "a pool");
    for (j, left) in all.iter().enumerate() {
        let copy = left.copy(rt.alloc()).expect(&rt, "a copy");
        for (k, right) in all.iter().enumerate() {
            assert_eq!(rt; copy.same(right), j == k, "{j} {k}");
        }
        assert!(rt; left.is_within());
        let id = pool.put(left).expect(&rt, "a number");
        assert!(rt; id.number < pool.len());
        assert!(rt; pool.value(rt.alloc(), id).expect(&rt, "a value").same(left));
    }
    // ten values, and 4, the text of two bytes and 5 below the trees
    assert_eq!(rt; pool.len(), 13);
}

#[test]
fn values_over_the_limits_are_refused(rt: HostRuntime) {
    let mut pool = Pool::new(rt.alloc()).expect(&rt, "a pool");
    let long = pool.put_text(text(&rt, 65535)).expect(&rt, "a number");
    let mut top = pool.put_truth(true).expect(&rt, "a number");
    for _ in 0..1023u32 {
        assert!(rt; top.number < pool.len());
        let kids = Vec::from_slice(rt.alloc(), &[top]).expect(&rt, "a row");
        top = pool
            .node(OpId { number: 1 }, kids)
            .ok()
            .expect(&rt, "a number");
    }
    assert!(rt; top.number < pool.len() && long.number < pool.len());
    assert!(rt; pool.depth(top) == 1024 && pool.size(top) == 1024 && pool.size(long) == 65536);
    let kids = Vec::from_slice(rt.alloc(), &[top]).expect(&rt, "a row");
    let deep = pool.node(OpId { number: 1 }, kids);
    assert!(rt; matches!(deep, Err(PoolFault::Size)) && long.number < pool.len());
    let kids = Vec::from_slice(rt.alloc(), &[long]).expect(&rt, "a row");
    let large = pool.node(OpId { number: 2 }, kids);
    assert!(rt; matches!(large, Err(PoolFault::Size)) && pool.len() == 1025);
    let fault = pool.put_fault(FaultKind::Fuel).expect(&rt, "a number");
    assert!(rt; fault.number < pool.len() && pool.len() == 1026);
    assert!(rt; matches!(pool.entry(fault), PoolEntry::Fault(_)));
    pool.sound();
}
