//! What is decoded: a graph under a plan, with each window's part and the conditional operations.
ghost use Rattle.std.specs.Prelude.{◌≡◌, ◌≤◌, ◌<◌, ◌^◌, true, All, IfOk, length, map};
ghost use Rattle.std.specs.Arc.{arc_value};
ghost use Rattle.std.specs.List.{range_with_len};
ghost use Rattle.std.specs.List.Sorted.{IsStrictlyIncreasing};
ghost use Rattle.graph_model.specs.Limits.{most_observables, most_places};
ghost use Rattle.boundary_fold.specs.Folds.{IsPlanFor};
ghost use Rattle.graph_model.specs.Graph.{GraphEdge, is_in};
ghost use Rattle.graph_model.specs.declared.Tag.{Tag as ModelTag};
ghost use Rattle.release_gate.specs.Gated.{AreGates};
ghost use Rattle.release_gate.specs.Operations.{IsTaskOf, operation_of};
ghost use Rattle.window_model.specs.Decoder.{needs, operation_at};
ghost use Rattle.window_model.specs.Grounded.{IsGrounded};
ghost use Rattle.window_model.specs.Parts.{part_of};
ghost use Rattle.window_model.specs.Windows.{home_of, places, slot_of, window_at, window_count};
ghost use Rattle.window_setting.specs.Defects.{AreClaimDefects, AreDefects};
ghost use Rattle.window_setting.specs.Settings.{AreFlippedBelow, AreOperations, IsSetting, greatest_slot, most_operations, task_timed};
ghost use Rattle.window_setting.specs.Slots.{last_raw};

use crate::Timing;
use boundary_fold::incoming;
use detector_graph::{Bits, Graph, Part, Tag};
use release_gate::{Gates, OpSpec};
use std::alloc::{AllocError, Global};
use std::marker::Model;
use std::sync::Arc;
use window_plan::Plan;

/// A graph under a plan, with each window's part, the slots of its detectors and observables, and
/// the conditional operations with what they wait for.
pub struct Setting {
    pub graph: Graph,
    /// A tag for each detector.
    pub tags: Vec<Tag>,
    pub plan: Plan,
    /// What each window decodes, by rank.
    pub parts: Vec<Arc<Part>>,
    /// For each observable the slot of its raw value.
    pub raws: Vec<u32>,
    /// The conditional operations, in order.
    pub ops: Vec<OpSpec>,
    /// What each of them waits for.
    pub gates: Gates,
    /// Slots go from 0 to this one, which is at most 4,095.
    pub last_slot: u32,
}

impl Drop for Setting {
    fn drop(self) {
        let Setting {
            graph: _,
            tags: _,
            plan: _,
            parts: _,
            raws: _,
            ops: _,
            gates: _,
            last_slot: _,
        } = self;
    }
}

impl Model for Setting {
    ghost use Rattle.std.specs.Prelude.{map};
    ghost use Rattle.std.specs.Arc.{arc_value};
    ghost use Rattle.window_model.specs.Decoder.{Task};
    ghost use Rattle.window_setting.specs.Settings.{FitTogether, task_for};

    ghost Value = { Task };

    ghost view = { λ s. task_for s.graph s.tags.items s.plan.plan s.ops.items s.raws.items
        s.last_slot };

    ghost invariant = { λ s. FitTogether
        (task_for s.graph s.tags.items s.plan.plan s.ops.items s.raws.items s.last_slot) s.plan
        (map arc_value s.parts.items) s.ops.items s.gates };
}

impl Setting {
    /// These parts, which have to be of one graph: the plan is one that was made of it with these
    /// tags, each detector has a walk to a free end within its slot and tile, the parts are those
    /// that the plan divides the graph into, and the gates are those of the operations. No slot is
    /// past the last, and the edges flip no other observables.
    pub fn new(
        graph: Graph,
        tags: Vec<Tag>,
        plan: Plan,
        parts: Vec<Arc<Part>>,
        timing: Timing,
    ) -> Setting
        requires plan { IsPlanFor graph tags.items plan }
        requires grounded { IsGrounded graph tags.items }
        requires parts { map arc_value parts.items
            ≡ map (part_of graph plan.plan) (range_with_len 0 (window_count plan.plan)) }
        requires raw_slots { IsTaskOf graph plan.plan timing.ops.items
            (task_timed graph tags.items plan.plan timing) }
        requires gates { AreGates (task_timed graph tags.items plan.plan timing) timing.gates }
        requires operations { AreOperations (task_timed graph tags.items plan.plan timing) }
        requires tags { All (λ (tag : ModelTag). tag.slot ≤ timing.last_slot) tags.items }
        requires raws { All (λ slot. slot ≤ timing.last_slot) timing.raws.items }
        requires masks { AreFlippedBelow (length timing.raws.items) graph.edges }
        requires few_raws { length timing.raws.items ≤ most_observables }
        requires few_operations { length timing.ops.items ≤ most_operations }
        requires last { timing.last_slot ≤ greatest_slot }
        ensures { result ≡ task_timed graph tags.items plan.plan timing }
    {
        let Timing {
            raws,
            ops,
            gates,
            last_slot,
        } = timing;
        Setting {
            graph,
            tags,
            plan,
            parts,
            raws,
            ops,
            gates,
            last_slot,
        }
    }

    /// What holds of each setting.
    pub fn is_setting(&self)
        ensures { IsSetting self.now }
    {
        self.graph.is_graph();
    }

    pub fn graph(&self) -> &Graph
        ensures { result.now ≡ self.now.graph }
    {
        &self.graph
    }

    /// How many windows there are.
    pub fn window_count(&self) -> u32
        ensures { result ≡ window_count self.now.plan }
    {
        self.plan.windows()
    }

    /// How many observables there are.
    pub fn raw_count(&self) -> u32
        ensures { result ≡ length self.now.raw_slots }
    {
        self.raws.len() as u32
    }

    /// How many conditional operations there are.
    pub fn operation_count(&self) -> u32
        ensures { result ≡ length self.now.operations }
    {
        self.ops.len() as u32
    }

    /// A conditional operation.
    pub fn operation(&self, op: u32) -> &OpSpec
        requires { op < length self.now.operations }
        ensures { operation_of result.now ≡ operation_at self.now op }
    {
        &self.ops[op as usize]
    }

    /// The windows that an operation needs, ascending.
    pub fn needs(&self, op: u32) -> &[u32]
        requires { op < length self.now.operations }
        ensures value { result.now ≡ needs self.now op }
        ensures ascending { IsStrictlyIncreasing result.now }
        ensures few { length result.now ≤ window_count self.now.plan }
    {
        self.gates.needs(op)
    }

    /// The last slot of the raw values of an operation's observables.
    pub fn last_raw(&self, op: u32) -> u32
        requires { op < length self.now.operations }
        ensures { result ≡ last_raw self.now op }
    {
        let spec = &self.ops[op as usize];
        spec.last_raw()
    }

    /// The windows on whose commits a window depends, ascending.
    pub fn deps(&self, window: u32) -> &[u32]
        requires { window < window_count self.now.plan }
        ensures { result.now ≡ (window_at self.now.plan window).deps }
    {
        self.plan.deps(window)
    }

    /// The places that a window shares with a dependency, ascending.
    pub fn places(&self, dependency: u32, window: u32) -> &[u32]
        requires window { window < window_count self.now.plan }
        requires dependency { is_in (window_at self.now.plan window).deps dependency ≡ true }
        ensures value { result.now ≡ places self.now.graph self.now.plan dependency window }
        ensures few { length result.now ≤ most_places }
        ensures below { All (λ v. v < self.now.graph.vertices) result.now }
    {
        self.plan.places(dependency, window)
    }

    /// What a window decodes, to be shared.
    pub fn part(&self, window: u32) -> Result<Arc<Part>, AllocError>
        requires { window < window_count self.now.plan }
        ensures { IfOk result (λ part. arc_value part
            ≡ part_of self.now.graph self.now.plan window) }
    {
        Ok(Arc::try_clone(self.shared_part(window))?)
    }

    /// What a window decodes.
    pub fn part_of(&self, window: u32) -> &Part
        requires { window < window_count self.now.plan }
        ensures { result.now ≡ part_of self.now.graph self.now.plan window }
    {
        self.shared_part(window)
    }

    fn shared_part(&self, window: u32) -> &Arc<Part>
        requires { window < window_count self.now.plan }
        ensures { arc_value result.now ≡ part_of self.now.graph self.now.plan window }
    {
        &self.parts[window as usize]
    }

    /// The edges that a window owns, ascending.
    pub fn owned(&self, window: u32) -> &[u32]
        requires { window < window_count self.now.plan }
        ensures value { result.now ≡ (window_at self.now.plan window).owned }
        ensures ascending { IsStrictlyIncreasing result.now }
    {
        self.plan.is_plan();
        self.plan.owned(window)
    }

    /// The window in whose cell a detector is.
    pub fn home(&self, detector: u32) -> u32
        requires { detector < self.now.graph.vertices }
        ensures { result ≡ home_of self.now.plan.homes detector }
    {
        self.plan.home(detector)
    }

    /// The slot of a detector.
    pub fn slot(&self, detector: u32) -> u32
        requires { detector < self.now.graph.vertices }
        ensures { result ≡ slot_of self.now.tags detector }
    {
        let tag = &self.tags[detector as usize];
        tag.slot
    }

    /// Writes the defects that a window is left with, where these are its links: for each of its
    /// dependencies a bit for each of the places that the two share.
    pub fn write_defects(&self, window: u32, values: &Bits, links: &[Bits], into: &mut Bits)
        requires window { window < window_count self.now.plan }
        requires values { length values.now ≡ self.now.graph.vertices }
        requires links { map length links.now ≡ map
            (λ x. length (places self.now.graph self.now.plan x window))
            (window_at self.now.plan window).deps }
        requires into { length into.old ≡ length (window_at self.now.plan window).detectors }
        ensures long { length into.new ≡ length into.old }
        ensures value { AreDefects self.now window values.now links.now into.new }
        ensures claimed { AreClaimDefects self.now window values.now links.now into.new }
    {
        self.is_setting();
        incoming(&self.plan, window, values, links, into);
    }

    /// The defects that a window is left with, where these are its links.
    pub fn defects(
        &self,
        alloc: Global,
        window: u32,
        values: &Bits,
        links: &[Bits],
    ) -> Result<Bits, AllocError>
        requires window { window < window_count self.now.plan }
        requires values { length values.now ≡ self.now.graph.vertices }
        requires links { map length links.now
            ≡ map (λ x. length (places self.now.graph self.now.plan x window))
            (window_at self.now.plan window).deps }
        ensures long { IfOk result (λ defects. length defects
            ≡ length (window_at self.now.plan window).detectors) }
        ensures value { IfOk result (λ defects. AreDefects self.now window values.now links.now
            defects) }
    {
        let count = self.plan.detectors(window).len();
        let mut defects = Bits::zeros(alloc, count as u32)?;
        self.write_defects(window, values, links, &mut defects);
        Ok(defects)
    }
}
