//! What is kept of conditional operations.
ghost use Rattle.std.specs.Prelude.{◌≡◌, ◌<◌, ◌+◌, ◌^◌, ℕ, All, IfOk, None, length, replicate, if◌then◌else◌, slice_index, true};
ghost use Rattle.std.specs.List.Sorted.{IsStrictlyIncreasing};
ghost use Rattle.graph_model.specs.Graph.{is_in};
ghost use Rattle.pauli_frame.specs.Frames.{IsCommitted, mask_at};
ghost use Rattle.poison_cascade.specs.Books.{IsLeast};
ghost use Rattle.release_laws.specs.Tables.{TakesWindow, bit_of, first_table, waiting_for, with_bit};
ghost use Rattle.release_watch.specs.Watches.{is_ready};
ghost use Rattle.window_model.specs.Decoder.{Task};

use crate::waiting::needed_counts;
use detector_graph::{EdgeSet, Graph};
use pauli_frame::Frame;
use std::alloc::{AllocError, Global};
use std::marker::Model;
use window_setting::Setting;

/// How many windows each operation still waits for, its bit once it is released, and the frame of
/// which bits are made.
pub struct ReleaseWatch {
    missing: Vec<u32>,
    bits: Vec<Option<bool>>,
    frame: Frame,
}

impl Drop for ReleaseWatch {
    fn drop(self) {
        let ReleaseWatch {
            missing: _,
            bits: _,
            frame: _,
        } = self;
    }
}

impl Model for ReleaseWatch {
    ghost use Rattle.std.specs.Prelude.{◌≡◌, length};
    ghost use Rattle.release_laws.specs.Tables.{ReleaseTable};

    ghost Value = { ReleaseTable };

    ghost view = { λ w. record {
      missing = w.missing.items;
      bits = w.bits.items;
      frame = w.frame;
    } };

    ghost invariant = { λ w. length w.bits.items ≡ length w.missing.items };
}

impl ReleaseWatch {
    /// Operations that wait for so many windows each, none of which is released, with a frame of
    /// no flips.
    pub fn new(alloc: Global, missing: Vec<u32>, frame: Frame) -> Result<ReleaseWatch, AllocError>
        ensures { IfOk result (λ w. w ≡ record {
          missing = missing.items;
          bits =
              replicate (length missing.items) None;
          frame = frame;
        }) }
    {
        let bits = vec![in alloc; None; missing.len()]?;
        Ok(ReleaseWatch {
            missing,
            bits,
            frame,
        })
    }

    /// What is kept before anything happens: all the windows that an operation needs are missing,
    /// and nothing is released or flipped.
    pub fn start(alloc: Global, setting: &Setting) -> Result<ReleaseWatch, AllocError>
        ensures { IfOk result (λ w. w ≡ first_table setting.now) }
    {
        setting.is_setting();
        let missing = needed_counts(alloc, setting)?;
        let frame = Frame::new(alloc, setting.raw_count())?;
        let watch = ReleaseWatch::new(alloc, missing, frame)?;
        Ok(watch)
    }

    /// A window that these operations need is committed with a set of edges. It costs time in
    /// proportion to the operations and to the masks of the edges.
    pub fn take_window(&mut self, ops: &[u32], graph: &Graph, kept: &EdgeSet)
        requires ascending { IsStrictlyIncreasing ops.now }
        requires ops { All (λ op. op < length self.old.missing) ops.now }
        requires missing { All (λ op. 0 < slice_index self.old.missing op) ops.now }
        requires edges { All (λ e. e < length graph.now.edges) kept.now }
        requires masks { All (λ e. All (λ l. l < length self.old.frame) (mask_at graph.now e))
            kept.now }
        ensures each { length self.new.missing ≡ length self.old.missing }
        ensures fewer { (op : ℕ) → slice_index self.old.missing op
            ≡ slice_index self.new.missing op + (if is_in ops.now op then 1 else 0) }
        ensures bits { self.new.bits ≡ self.old.bits }
        ensures frame { IsCommitted graph.now kept.now self.old.frame self.new.frame }
        ensures takes { (task : Task) (w : ℕ) → task.graph ≡ graph.now →
            ops.now ≡ waiting_for task w →
            TakesWindow task w kept.now self.old self.new }
    {
        lower(self.missing.as_mut_slice(), ops);
        self.frame.commit(graph, kept);
    }

    /// An operation is released with its bit.
    pub fn release(&mut self, op: u32, bit: bool)
        requires { op < length self.old.bits }
        ensures { self.new ≡ with_bit self.old op bit }
    {
        self.bits[op as usize] = Some(bit);
    }

    /// The bit of an operation, once it is released.
    pub fn released(&self, op: u32) -> Option<bool>
        requires { op < length self.now.bits }
        ensures { result ≡ bit_of self.now op }
    {
        self.bits[op as usize]
    }

    /// What the committed edges flip.
    pub fn frame(&self) -> &Frame
        ensures { result.now ≡ self.now.frame }
    {
        &self.frame
    }

    /// The least operation that isn't released, to which no window is missing and whose last raw
    /// slot is among so many slots.
    pub fn next_release(&self, last_raws: &[u32], arrived: u32) -> Option<u32>
        requires each { length last_raws.now ≡ length self.now.missing }
        requires few { length last_raws.now < 2 ^ 32 }
        ensures { IsLeast (λ op. (op < length self.now.missing)
            × (is_ready last_raws.now arrived self.now op ≡ true)) result }
    {
        for at in 0..last_raws.len() {
            if self.is_ready(last_raws, arrived, at as u32) {
                return Some(at as u32);
            }
        }
        None
    }

    fn is_ready(&self, last_raws: &[u32], arrived: u32, op: u32) -> bool
        requires each { length last_raws.now ≡ length self.now.missing }
        requires op { op < length self.now.missing }
        ensures { result ≡ is_ready last_raws.now arrived self.now op }
    {
        let at = op as usize;
        self.bits[at].is_none() && self.missing[at] == 0 && last_raws[at] < arrived
    }
}

/// One fewer at each of these places.
fn lower(counts: &mut [u32], places: &[u32])
    requires ascending { IsStrictlyIncreasing places.now }
    requires places { All (λ k. k < length counts.old) places.now }
    requires counts { All (λ k. 0 < slice_index counts.old k) places.now }
    ensures each { length counts.new ≡ length counts.old }
    ensures fewer { (k : ℕ) → slice_index counts.old k
        ≡ slice_index counts.new k + (if is_in places.now k then 1 else 0) }
{
    for place in places {
        counts[*place as usize] -= 1;
    }
}
