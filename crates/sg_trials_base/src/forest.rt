//! Forests that grow, exchange and drop, a deep one, a wide one and a large one.

use sg_forest::{Forest, Label, NodeId};
use std::process::Abort;

/// A label of so many children, all of one sort.
#[derive(Debug, Drop)]
struct Width {
    kids: usize,
}

impl Label for Width {
    ghost arity_of = { λ w. w.kids };

    ghost sort_of = { λ _. 0 };

    ghost kid_sort_of = { λ _ _. 0 };

    fn arity(&self) -> usize {
        self.kids
    }

    fn sort(&self) -> u32 {
        0
    }

    fn kid_sort(&self, _k: usize) -> u32 {
        0
    }
}

type Numbers = Forest<Width, u32>;

/// A new root over roots.
fn over(
    rt: &(impl Abort + AllocGlobal),
    forest: &mut Numbers,
    part: u32,
    kids: Vec<NodeId>,
) -> NodeId {
    'roots: for i in 0..kids.len() {
        assert!(rt; forest.contains(kids[i]));
        assert!(rt; forest.parent(kids[i]).is_none());
    }
    'each: for i in 0..kids.len() {
        'earlier: for j in 0..i {
            assert!(rt; kids[j] != kids[i]);
        }
    }
    forest
        .grow(Width { kids: kids.len() }, part, kids)
        .expect(rt, "a node")
}

/// A new root over these roots, of which there is none, one or two.
fn above(
    rt: &(impl Abort + AllocGlobal),
    forest: &mut Numbers,
    part: u32,
    kids: &[NodeId],
) -> NodeId {
    let kids = Vec::from_slice(rt.alloc(), kids).expect(rt, "a list");
    over(rt, forest, part, kids)
}

/// The part of a node, and the part and the place where it hangs; a root hangs nowhere.
fn hangs(
    rt: &(impl Abort + AllocGlobal),
    forest: &Numbers,
    n: NodeId,
) -> (u32, Option<(u32, usize)>) {
    assert!(rt; forest.contains(n));
    let part = *forest.part(n);
    match forest.parent(n) {
        Some((above, place)) => {
            assert!(rt; forest.contains(above));
            assert!(rt; place < forest.arity(above));
            assert!(rt; forest.kid(above, place) == n);
            (part, Some((*forest.part(above), place)))
        }
        None => (part, None),
    }
}

fn swap(rt: &(impl Abort + AllocGlobal), forest: &mut Numbers, at: NodeId, detached: NodeId) {
    assert!(rt; forest.contains(at));
    assert!(rt; forest.contains(detached));
    assert!(rt; forest.parent(detached).is_none());
    assert!(rt; !forest.is_inside(at, detached));
    forest.swap(at, detached);
}

fn drop_tree(rt: &(impl Abort + AllocGlobal), forest: &mut Numbers, root: NodeId) {
    assert!(rt; forest.contains(root));
    assert!(rt; forest.parent(root).is_none());
    forest.drop_tree(root);
}

/// Each node has this part and hangs there.
fn hang(
    rt: &(impl Abort + AllocGlobal),
    forest: &Numbers,
    rows: &[(NodeId, u32, Option<(u32, usize)>)],
) {
    for &(n, part, up) in rows {
        assert!(rt; hangs(rt, forest, n) == (part, up));
    }
}

#[test]
fn exchanges_inside_and_across_trees(rt: HostRuntime) {
    let mut forest = Numbers::new(rt.alloc()).expect(&rt, "a forest");
    forest.reserve(5).expect(&rt, "room");
    let a = above(&rt, &mut forest, 1, &[]);
    let b = above(&rt, &mut forest, 2, &[]);
    let pair = above(&rt, &mut forest, 3, &[a, b]);
    let top = above(&rt, &mut forest, 4, &[pair]);
    let c = above(&rt, &mut forest, 5, &[]);
    swap(&rt, &mut forest, a, c);
    hang(
        &rt,
        &forest,
        &[
            (a, 1, None),
            (c, 5, Some((3, 0))),
            (b, 2, Some((3, 1))),
            (pair, 3, Some((4, 0))),
        ],
    );
    swap(&rt, &mut forest, top, a);
    swap(&rt, &mut forest, pair, a);
    hang(
        &rt,
        &forest,
        &[
            (a, 1, Some((4, 0))),
            (c, 5, Some((3, 0))),
            (pair, 3, None),
            (top, 4, None),
        ],
    );
    drop_tree(&rt, &mut forest, pair);
    assert!(rt; !forest.contains(b) && forest.contains(a));
    assert_eq!(rt; forest.label(a).kids, 0);
    assert_eq!(rt; forest.set_part(a, 6), 1);
    hang(&rt, &forest, &[(a, 6, Some((4, 0)))]);
}

#[test]
fn holds_a_chain_of_1024_and_a_node_of_16(rt: HostRuntime) {
    let mut forest = Numbers::new(rt.alloc()).expect(&rt, "a forest");
    let last = above(&rt, &mut forest, 0, &[]);
    let mut top = last;
    for part in 1..1024u32 {
        top = above(&rt, &mut forest, part, &[top]);
    }
    assert!(rt; forest.contains(last));
    assert!(rt; forest.is_inside(last, top));
    hang(&rt, &forest, &[(last, 0, Some((1, 0))), (top, 1023, None)]);
    let mut leaves = Vec::new(rt.alloc());
    for part in 0..16u32 {
        let leaf = above(&rt, &mut forest, part, &[]);
        leaves.push(leaf).expect(&rt, "a list");
    }
    assert_eq!(rt; leaves.len(), 16);
    let last = leaves[15];
    over(&rt, &mut forest, 16, leaves);
    hang(&rt, &forest, &[(last, 15, Some((16, 15)))]);
}

#[test]
fn drops_65536_nodes(rt: HostRuntime) {
    let mut forest = Numbers::new(rt.alloc()).expect(&rt, "a forest");
    let other = above(&rt, &mut forest, 7, &[]);
    let first = above(&rt, &mut forest, 0, &[]);
    let mut top = above(&rt, &mut forest, 0, &[first]);
    for part in 1..32768u32 {
        let beside = above(&rt, &mut forest, part, &[]);
        top = above(&rt, &mut forest, part, &[beside, top]);
    }
    drop_tree(&rt, &mut forest, top);
    assert!(rt; !forest.contains(top) && !forest.contains(first));
    hang(&rt, &forest, &[(other, 7, None)]);
}
