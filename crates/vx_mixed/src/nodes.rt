// What stands at each block's number, as a list of which any node can be exchanged where it stands.

ghost use Rattle.std.specs.Prelude.{◌≡◌, ◌<◌, ◌^◌, [], ◌∷◌, ◌++◌, length, slice_set, IfOk, OnErr};

use crate::region::Node;
use std::alloc::{AllocError, Global};
use std::marker::Model;

/// The most nodes: blocks are `u32` numbers.
const MOST_NODES: usize = 4294967295;

/// A growable list of nodes. Its value in a contract is the list of them, that of block 0 first. A growth past its room is
/// want of memory.
#[derive(Drop)]
pub struct Nodes {
    nodes: Vec<Node>,
}

impl Model for Nodes {
    ghost use Rattle.std.specs.Prelude.{List, length, ◌<◌, ◌^◌};
    ghost use Rattle.vx_mixed.specs.declared.region.Node.{Node};

    ghost Value = { List Node };

    ghost view = { λ n. n.nodes.items };

    ghost invariant = { λ n. length n.nodes.items < 2 ^ 32 };
}

impl Nodes {
    /// No nodes, which takes no memory.
    pub fn new(alloc: Global) -> Nodes
        ensures { result ≡ [] }
    {
        Nodes {
            nodes: Vec::new(alloc),
        }
    }

    /// The nodes, that of block 0 first.
    pub fn as_slice(&self) -> &[Node]
        ensures { result.now ≡ self.now }
    {
        self.nodes.as_slice()
    }

    /// How many nodes there are.
    pub fn len(&self) -> usize
        ensures len { result ≡ length self.now }
        ensures few { result < 2 ^ 32 }
    {
        self.nodes.len()
    }

    /// Puts a node at the end. Without memory the list stays as it was.
    pub fn push(&mut self, node: Node) -> Result<(), AllocError>
        ensures ok { IfOk result (λ _. self.new ≡ self.old ++ node ∷ []) }
        ensures err { OnErr result (self.new ≡ self.old) }
    {
        if self.nodes.len() >= MOST_NODES {
            return Err(AllocError);
        }
        match self.nodes.push(node) {
            Ok(()) => Ok(()),
            Err(_) => Err(AllocError),
        }
    }

    /// Puts a node in place of the one of a block.
    pub fn set(&mut self, block: usize, node: Node)
        requires { block < length self.old }
        ensures { self.new ≡ slice_set self.old block node }
    {
        self.nodes[block] = node;
    }
}
