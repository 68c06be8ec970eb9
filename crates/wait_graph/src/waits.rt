//! The graph.
ghost use Rattle.std.specs.Prelude.{◌≡◌, ◌<◌, ◌++◌, ◌∷◌, [], ◌↔◌, ◌==◌, not, IsTrue, IfOk, length, filter};
ghost use Rattle.wait_graph.specs.Walks.{Leads, IsAcyclic};

use crate::marks::leads;
use mm_outside::Memory;
use std::alloc::Global;
use std::marker::Model;

/// A graph of waits: the pairs of units of which the first waits for the second, in the order in
/// which they were added. Units are counted from 0. No walk of two or more units leads from a unit
/// to itself. All its memory is taken when it is made.
#[derive(Debug, Drop)]
pub struct Waits {
    pairs: Vec<(u32, u32)>,
    marks: Vec<bool>,
    edges: usize,
}

impl Model for Waits {
    ghost use Rattle.std.specs.Prelude.{vec_len};
    ghost use Rattle.wait_graph.specs.Graph.{Graph, IsGraph};

    ghost Value = { Graph };

    ghost view = { λ waits. record { units = vec_len waits.marks; edges = waits.edges; pairs = waits.pairs.items } };

    ghost invariant = { λ waits. IsGraph waits.pairs waits.marks.items waits.edges };
}

impl Waits {
    /// A graph of so many units, with room for so many pairs, and no pair yet.
    pub fn new(alloc: Global, units: u32, edges: u32) -> Result<Waits, Memory>
        ensures { IfOk result (λ waits.
            waits ≡ record { units = units; edges = edges; pairs = [] }) }
    {
        let pairs = Vec::with_capacity(alloc, edges as usize)?;
        let marks = vec![in alloc; false; units as usize]?;
        Ok(Waits {
            pairs,
            marks,
            edges: edges as usize,
        })
    }

    /// Adds a pair at the end. It takes no memory.
    pub fn add(&mut self, from: u32, to: u32)
        requires from { from < self.old.units }
        requires to { to < self.old.units }
        requires room { length self.old.pairs < self.old.edges }
        requires no_circle { ¬ Leads self.old.pairs to from }
        ensures added { self.new ≡ record self.old { pairs = self.old.pairs ++ (from, to) ∷ [] } }
        ensures acyclic { IsAcyclic self.new.pairs }
    {
        self.pairs.push_reserved((from, to));
    }

    /// Removes all pairs to the unit. It takes no memory.
    pub fn settle(&mut self, to: u32)
        ensures { self.new ≡ record self.old {
          pairs = filter (λ pair. not (pair.1 == to)) self.old.pairs;
        } }
    {
        self.pairs.retain(|pair| pair.1 != to);
    }

    /// Removes all pairs from the unit. It takes no memory.
    pub fn drop_from(&mut self, from: u32)
        ensures { self.new ≡ record self.old {
          pairs = filter (λ pair. not (pair.0 == from)) self.old.pairs;
        } }
    {
        self.pairs.retain(|pair| pair.0 != from);
    }

    /// Whether a walk leads there. It takes no memory, and goes over the pairs at most once for each
    /// unit. From and to what is no unit of the graph only the walk of that one leads.
    pub fn reaches(&mut self, from: u32, to: u32) -> bool
        ensures walk { IsTrue result ↔ Leads self.old.pairs from to }
        ensures acyclic { IsAcyclic self.old.pairs }
        ensures same { self.new ≡ self.old }
    {
        let units = self.marks.len();
        if from as usize >= units || to as usize >= units {
            return from == to;
        }
        leads(&self.pairs, &mut self.marks, from as usize, to as usize)
    }
}
