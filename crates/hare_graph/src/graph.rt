//! Graphs, whose nodes have numbers.

ghost use Rattle.std.specs.Prelude.{◌≡◌, length, slice_get, option_copied, OnOk, OnErr, IfOk};
ghost use Rattle.hare_graph.specs.Graphs as spec;

use hx_base::Items;
use std::alloc::{AllocError, Global};
use std::marker::Model;

/// A graph: of each node the nodes to which it leads.
#[derive(Drop)]
pub struct Graph {
    nodes: Vec<Items<usize>>,
}

impl Model for Graph {
    ghost use Rattle.std.specs.Prelude.{List, ℕ};

    ghost Value = { List (List ℕ) };

    ghost view = { λ a. a.nodes.items };
}

impl Graph {
    /// A graph of so many nodes that lead nowhere.
    pub fn new(alloc: Global, count: usize) -> Result<Graph, AllocError>
        ensures { IfOk result (λ g. g ≡ spec.edgeless count) }
    {
        let mut nodes = Vec::new(alloc);
        for _ in 0..count {
            nodes.push(Items::new(alloc))?;
        }
        Ok(Graph { nodes })
    }

    /// How many nodes there are.
    pub fn len(&self) -> usize
        ensures { result ≡ length self.now }
    {
        self.nodes.len()
    }

    /// The nodes to which a node leads.
    pub fn next(&self, node: usize) -> Option<&Items<usize>>
        ensures { option_copied result ≡ slice_get self.now node }
    {
        self.nodes.get(node)
    }

    /// Lets a node lead to another.
    pub fn put(&mut self, from: usize, to: usize) -> Result<(), AllocError>
        ensures ok { OnOk result (self.new ≡ spec.with_edge self.old from to) }
    {
        if from < self.nodes.len() {
            self.nodes[from].push(to)?;
        }
        Ok(())
    }
}
