//! For each observable whether an odd number of the committed edges flip it.
ghost use Rattle.std.specs.Prelude.{◌≡◌, ◌<◌, ◌≤◌, ◌==◌, ℕ, All, IfOk, false, length, replicate, slice_index_or};
ghost use Rattle.std.specs.List.Sorted.{IsStrictlyIncreasing};
ghost use Rattle.graph_model.specs.Limits.{most_observables};
ghost use Rattle.graph_model.specs.Graph.{is_in};
ghost use Rattle.graph_model.specs.Parity.{◌⊕◌};
ghost use Rattle.pauli_frame.specs.Frames.{IsCommitted, mask_at};

use detector_graph::{Bits, EdgeSet, Graph, Labels};
use std::alloc::{AllocError, Global};
use std::marker::Model;

/// The flips of a range of observables, the numbers below the number of labels.
///
/// An observable's value is the exclusive or of its raw value and its flip.
#[derive(Drop)]
pub struct Frame {
    flips: Bits,
}

impl Model for Frame {
    ghost use Rattle.std.specs.Prelude.{Bool, List};

    ghost Value = { List Bool };

    ghost view = { λ f. f.flips };
}

impl Frame {
    /// So many observables, none of them flipped.
    pub fn new(alloc: Global, labels: u32) -> Result<Frame, AllocError>
        requires { labels ≤ most_observables }
        ensures { IfOk result (λ f. f ≡ replicate labels false) }
    {
        let flips = Bits::zeros(alloc, labels)?;
        Ok(Frame { flips })
    }

    /// Commits a set of edges: turns each observable's flip once for each edge whose mask has it.
    /// It costs time in proportion to the masks.
    pub fn commit(&mut self, graph: &Graph, kept: &EdgeSet)
        requires edges { All (λ e. e < length graph.now.edges) kept.now }
        requires masks { All (λ e. All (λ l. l < length self.old) (mask_at graph.now e)) kept.now }
        ensures { IsCommitted graph.now kept.now self.old self.new }
    {
        turn_edges(&mut self.flips, graph, kept);
    }

    /// Whether an odd number of the committed edges flip the observable.
    pub fn flip(&self, label: u32) -> bool
        requires { label < length self.now }
        ensures { result ≡ slice_index_or self.now label false }
    {
        self.flips.get(label)
    }
}

/// Turns the values of the labels of each edge.
fn turn_edges(flips: &mut Bits, graph: &Graph, set: &EdgeSet)
    requires edges { All (λ e. e < length graph.now.edges) set.now }
    requires masks { All (λ e. All (λ l. l < length flips.old) (mask_at graph.now e)) set.now }
    ensures { IsCommitted graph.now set.now flips.old flips.new }
{
    for edge in set.as_slice() {
        turn_labels(flips, &graph.edge(*edge).mask);
    }
}

/// Turns the values of an edge's labels.
fn turn_labels(flips: &mut Bits, mask: &Labels)
    requires ascending { IsStrictlyIncreasing mask.now }
    requires below { All (λ l. l < length flips.old) mask.now }
    ensures len { length flips.new ≡ length flips.old }
    ensures value { (l : ℕ) → slice_index_or flips.new l false
        ≡ slice_index_or flips.old l false ⊕ is_in mask.now l }
{
    for label in mask.as_slice() {
        flips.flip(*label as u32);
    }
}
