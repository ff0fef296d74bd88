//! Graphs with their closures and cycles, rows along links, and sets at the edges of their words.
use sg_sets::{BitSet, Relation, Rows};
use std::process::Abort;

/// How many vertices, the edges, how many pairs are in the closure, and the cycle that is reported, empty where there
/// is none.
type Graph = (usize, &'static [(usize, usize)], usize, &'static [usize]);

const GRAPHS: [Graph; 9] = [
    (0, &[], 0, &[]),
    (3, &[(0, 1), (1, 2), (0, 2)], 3, &[]),
    // a loop, the only cycle
    (4, &[(0, 1), (1, 2), (2, 2), (2, 3)], 7, &[2]),
    // two of one length
    (
        5,
        &[(0, 2), (2, 3), (3, 0), (0, 1), (1, 4), (4, 0)],
        25,
        &[0, 1, 4],
    ),
    // a long one and a short one
    (4, &[(0, 1), (1, 2), (2, 3), (3, 0), (0, 3)], 16, &[0, 3]),
    // the shortest of all does not start least
    (4, &[(0, 1), (1, 2), (2, 0), (3, 3)], 10, &[0, 1, 2]),
    // the least vertex lies on none
    (3, &[(0, 1), (1, 2), (2, 1)], 6, &[1, 2]),
    // the least next vertex does not lead back soonest
    (
        6,
        &[
            (0, 5),
            (5, 1),
            (1, 0),
            (0, 4),
            (4, 2),
            (2, 0),
            (0, 3),
            (3, 3),
        ],
        31,
        &[0, 4, 2],
    ),
    // in the second word
    (
        70,
        &[(69, 64), (64, 65), (65, 69), (64, 69), (3, 69)],
        12,
        &[64, 69],
    ),
];

/// The relation with these edges.
fn graph(rt: &(impl Abort + AllocGlobal), size: usize, edges: &[(usize, usize)]) -> Relation {
    let mut relation = Relation::new(rt.alloc(), size).expect(rt, "a relation");
    for &(a, b) in edges {
        assert!(rt; a < relation.size() && b < relation.size());
        relation.add(a, b);
    }
    relation
}

/// How many pairs a relation has.
fn pairs(relation: &Relation) -> usize {
    let mut count = 0usize;
    for b in 0..relation.size() {
        count = count.saturating_add(relation.predecessors(b));
    }
    count
}

/// Whether a relation has these edges.
fn has_all(relation: &Relation, edges: &[(usize, usize)]) -> bool {
    for &(a, b) in edges {
        if a >= relation.size() || !relation.holds(a, b) || !relation.successors(a).contains(b) {
            return false;
        }
    }
    true
}

#[test]
fn graphs_with_their_closures_and_cycles(rt: HostRuntime) {
    for &(size, edges, closed, expected) in &GRAPHS {
        let relation = graph(&rt, size, edges);
        let found = relation.cycle(rt.alloc()).expect(&rt, "a cycle or none");
        match &found {
            Some(cycle) => assert_eq!(rt; cycle.as_slice(), expected),
            None => assert_eq!(rt; expected.len(), 0),
        }
        let mut closure = relation.copy(rt.alloc()).expect(&rt, "a copy");
        closure.close();
        assert_eq!(rt; pairs(&closure), closed);
        assert!(rt; has_all(&closure, edges) && closure.size() == relation.size());
        let grown = closure.join(&relation);
        assert!(rt; !grown);
    }
}

/// Two ends, and the way that is found between them, empty where there is none.
const WAYS: [(usize, usize, &[usize]); 6] = [
    // two of one length
    (0, 1, &[0, 4, 1]),
    // back to where it begins
    (2, 2, &[2, 0, 4, 1, 2]),
    (3, 3, &[3, 3]),
    (1, 2, &[1, 2]),
    (1, 3, &[]),
    (0, 6, &[]),
];

#[test]
fn ways_from_one_vertex_to_another(rt: HostRuntime) {
    let edges = [(0, 5), (5, 1), (0, 4), (4, 1), (1, 2), (2, 0), (3, 3)];
    let relation = graph(&rt, 6, &edges);
    for &(from, to, expected) in &WAYS {
        let found = relation
            .way(rt.alloc(), from, to)
            .expect(&rt, "a way or none");
        match &found {
            Some(way) => assert_eq!(rt; way.as_slice(), expected),
            None => assert_eq!(rt; expected.len(), 0),
        }
    }
}

#[test]
fn a_ring_of_a_thousand(rt: HostRuntime) {
    let mut relation = Relation::new(rt.alloc(), 1000).expect(&rt, "a relation");
    for a in 0..1000usize {
        assert!(rt; relation.size() == 1000);
        relation.add(a, if a < 999 { a + 1 } else { 0 });
    }
    let found = relation.cycle(rt.alloc()).expect(&rt, "a cycle or none");
    let cycle = found.expect(&rt, "a cycle");
    assert_eq!(rt; cycle.len(), 1000);
    for (k, number) in cycle.iter().enumerate() {
        assert!(rt; *number == k);
    }
}

/// The numbers of each row after they flowed: row 0 feeds 1 and 3, a ring of 1, 2 and 3 feeds 4, and row 5 stands
/// alone.
const FLOWED: [&[usize]; 6] = [&[99], &[0, 99], &[0, 99], &[0, 99], &[0, 99], &[64]];

#[test]
fn numbers_flow_along_links(rt: HostRuntime) {
    let mut rows = Rows::new(rt.alloc(), 6, 100).expect(&rt, "rows");
    rows.insert(0, 99);
    rows.insert(2, 0);
    rows.insert(5, 64);
    rows.flow(&[(3, 4), (2, 3), (1, 2), (0, 1), (3, 1), (0, 3)]);
    let mut rows = rows.copy(rt.alloc()).expect(&rt, "a copy");
    for (row, numbers) in FLOWED.iter().enumerate() {
        for number in 0..100usize {
            assert_eq!(rt;
                rows.holds(row, number),
                numbers.contains(&number),
                "row {row}"
            );
        }
    }
    assert!(rt; rows.count() == 6 && rows.width() == 100);
    let last = rows.row(5).copy(rt.alloc()).expect(&rt, "a copy");
    assert!(rt; last.width() == rows.width());
    let grown = rows.union_row(1, &last);
    assert!(rt; grown && rows.holds(1, 64) && rows.count() == 6);
    let joined = rows.join_row(1, 4);
    assert!(rt; joined && rows.holds(4, 64));
}

#[test]
fn sets_at_the_edges_of_words(rt: HostRuntime) {
    for width in [1usize, 63, 64, 65, 128, 130] {
        let mut set = BitSet::new(rt.alloc(), width).expect(&rt, "a set");
        assert!(rt; set.width() == width);
        set.insert(width - 1);
        let other = set.copy(rt.alloc()).expect(&rt, "a copy");
        set.insert(width / 2);
        assert_eq!(rt; set.first_shared(&other), Some(width - 1));
        set.clear();
        assert!(rt; !set.contains(width - 1) && set.width() == other.width());
        let grown = set.union(&other);
        assert!(rt; grown && set.contains(width - 1) && !set.contains(width));
    }
}
