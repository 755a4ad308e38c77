// Which nodes a chain of edges leads to, among nodes that are numbered from 0.
ghost use Rattle.std.specs.Prelude.{◌≡◌, ℕ, ◌+◌, ◌<◌, List, [], ◌∷◌, ◌++◌, length, replicate, IfOk, OnOk, slice_index_or, slice_set, slice_get};
ghost use Rattle.std.specs.List.{Contains};
ghost use Rattle.cfa_calls.specs.Reaching.{row_of, Leads, IsWithin, IsReached, Search};

use cfa_base::NoMemory;
use std::alloc::Global;
use std::marker::Model;

/// Nodes, each with those that its edges lead to. Contracts see the list of these lists.
#[derive(Drop)]
pub(crate) struct Graph {
    rows: Vec<Vec<usize>>,
}

impl Model for Graph {
    ghost use Rattle.std.specs.Prelude.{List, ℕ};
    ghost use Rattle.cfa_calls.specs.Reaching.{rows_of, IsWithin};

    ghost Value = { List (List ℕ) };

    ghost view = { λ graph. rows_of graph.rows.items };

    ghost invariant = { λ graph. IsWithin (rows_of graph.rows.items) };
}

impl Graph {
    /// Some nodes with no edges.
    pub(crate) fn new(alloc: Global, nodes: usize) -> Result<Graph, NoMemory>
        ensures { IfOk result (λ graph. graph ≡ replicate nodes []) }
    {
        let mut rows = Vec::new(alloc);
        for _node in 0..nodes {
            rows.push(Vec::new(alloc))?;
        }
        Ok(Graph { rows })
    }

    pub(crate) fn len(&self) -> usize
        ensures { result ≡ length self.now }
    {
        self.rows.len()
    }

    /// Adds an edge from a node to a node.
    pub(crate) fn connect(&mut self, from: usize, to: usize) -> Result<(), NoMemory>
        requires from_node { from < length self.old }
        requires to_node { to < length self.old }
        ensures { OnOk result (self.new
            ≡ slice_set self.old from (row_of self.old from ++ to ∷ [])) }
    {
        let row = &mut self.rows[from];
        row.push(to)?;
        Ok(())
    }

    /// The nodes that a node has edges to.
    pub(crate) fn row(&self, node: usize) -> &[usize]
        requires { node < length self.now }
        ensures row { result.now ≡ row_of self.now node }
        ensures within { IsWithin self.now }
    {
        self.rows[node].as_slice()
    }

    /// The node that an edge of a node leads to, by the place of the edge in the node's row. `None` past the last.
    pub(crate) fn edge(&self, node: usize, place: usize) -> Option<usize>
        ensures { result ≡ slice_get (row_of self.now node) place }
    {
        if node < self.rows.len() {
            return self.row(node).get(place).copied();
        }
        None
    }

    /// Marks the nodes that chains of edges lead to from a node, and the node itself.
    pub(crate) fn reached(&self, alloc: Global, from: usize) -> Result<Vec<bool>, NoMemory>
        requires { from < length self.now }
        ensures { IfOk result (λ seen. IsReached self.now from seen.items) }
    {
        let mut seen = vec![in alloc; false; self.len()]?;
        seen[from] = true;
        let mut order = Vec::new(alloc);
        order.push(from)?;
        let mut at = 0;
        while at < order.len() {
            self.follow(at, &mut seen, &mut order)?;
            at += 1;
        }
        Ok(seen)
    }

    // Follows the edges of the node at a place of the order.
    fn follow(&self, at: usize, seen: &mut [bool], order: &mut Vec<usize>) -> Result<(), NoMemory>
        requires placed { at < length order.old.items }
        requires node { slice_index_or order.old.items at 0 < length self.now }
        requires sized { length seen.old ≡ length self.now }
        ensures { (first : ℕ) → Search self.now first seen.old order.old.items at []
            → OnOk result (Search self.now first seen.new order.new.items (at + 1) []) }
    {
        let node = order[at];
        for next in self.row(node) {
            if seen[*next] {
                continue;
            }
            order.push(*next)?;
            seen[*next] = true;
        }
        Ok(())
    }
}
