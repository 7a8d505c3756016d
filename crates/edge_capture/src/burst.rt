ghost use Rattle.std.specs.Prelude.{◌≡◌, ◌<◌, ◌≤◌, ◌^◌, ◌++◌, [], ◌∷◌, ℕ, length, IsTrue, ◌↔◌};
ghost use Rattle.edge_capture.specs.Edges.{edge_at, last_at, IsInOrder};

use arrayvec::ArrayVec;
use esc_base::Edge;
use std::marker::Model;

/// The edges that a window has heard, in their order: at most 32, and their ticks don't fall.
#[derive(Drop)]
pub struct Burst {
    edges: ArrayVec<Edge, 32>,
}

impl Model for Burst {
    ghost use Rattle.std.specs.Prelude.{List, ◌<◌, ◌≤◌, ◌^◌, length};
    ghost use Rattle.esc_base.specs.declared.signal.Edge.{Edge};
    ghost use Rattle.edge_capture.specs.Edges.{last_at, IsInOrder};

    ghost Value = { List Edge };

    ghost view = { λ b. b.edges.items };

    ghost invariant = { λ b. (length b.edges.items ≤ 32) × IsInOrder b.edges.items × (last_at b.edges.items < 2 ^ 31) };
}

impl Burst {
    /// No edges.
    pub fn new() -> Burst
        ensures { result ≡ [] }
    {
        Burst {
            edges: ArrayVec::new(),
        }
    }

    /// Adds an edge that comes after all others, or at the tick of the last one; its tick is below 2^31.
    pub fn push(&mut self, e: Edge)
        requires room { length self.old < 32 }
        requires later { last_at self.old ≤ e.t.0 }
        requires small { e.t.0 < 2 ^ 31 }
        ensures { self.new ≡ self.old ++ e ∷ [] }
    {
        self.edges.push(e);
    }

    /// The number of edges, at most 32.
    pub fn len(&self) -> usize
        ensures len { result ≡ length self.now }
        ensures most { result ≤ 32 }
    {
        self.edges.len()
    }

    /// Whether there is no edge.
    pub fn is_empty(&self) -> bool
        ensures { IsTrue result ↔ (self.now ≡ []) }
    {
        self.edges.is_empty()
    }

    /// The edge at this place, counted from 0.
    pub fn at(&self, i: usize) -> Edge
        requires { i < length self.now }
        ensures edge { result ≡ edge_at self.now i }
        ensures small { result.t.0 < 2 ^ 31 }
        ensures later { (j : ℕ) → j ≤ i → (edge_at self.now j).t.0 ≤ result.t.0 }
    {
        self.edges.as_slice()[i]
    }

    /// Forgets all edges.
    pub fn clear(&mut self)
        ensures { self.new ≡ [] }
    {
        self.edges.clear();
    }
}
