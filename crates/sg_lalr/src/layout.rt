//! The items of all states in one list.
ghost use Rattle.std.specs.Prelude.{◌≡◌, ◌≤◌, ◌++◌, length, map, IfOk, OnOk};
ghost use Rattle.sg_lalr.specs.Lookaheads.{node, IsLaid};

use crate::items::Item;
use crate::lookaheads::Node;
use sg_kinds::row::Row;
use std::alloc::{AllocError, Global};

/// The items of all states, and for each state the place of its first one; the last place is their number.
#[derive(Drop)]
pub(crate) struct Layout {
    pub(crate) nodes: Vec<Node>,
    pub(crate) firsts: Vec<usize>,
}

/// Puts the items of a state behind the others.
fn push_core(nodes: &mut Vec<Node>, state: u32, core: &[Item]) -> Result<(), AllocError>
    ensures { OnOk result (nodes.new.items ≡ nodes.old.items ++ map (node state) core.now) }
{
    for item in core {
        nodes.push(Node { state, item: *item })?;
    }
    Ok(())
}

/// The items of all states, in order.
pub(crate) fn lay(alloc: Global, cores: &[Row<Item>]) -> Result<Layout, AllocError>
    requires { length cores.now ≤ 65536 }
    ensures { IfOk result (λ l. IsLaid cores.now l.nodes.items l.firsts.items) }
{
    let mut nodes = Vec::new(alloc);
    let mut firsts = Vec::new(alloc);
    firsts.push(0)?;
    for (state, core) in cores.iter().enumerate() {
        push_core(&mut nodes, state as u32, core.as_slice())?;
        firsts.push(nodes.len())?;
    }
    nodes.shrink_to_fit();
    Ok(Layout { nodes, firsts })
}
