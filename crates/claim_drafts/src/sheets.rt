//! Sheets for the defects of windows.
ghost use Rattle.std.specs.Prelude.{◌≡◌, ◌≢◌, ◌<◌, ℕ, [], IfOk, Some, length, map, slice_get, slice_index_or};
ghost use Rattle.claim_drafts.specs.Drafts.{AreSheets};
ghost use Rattle.window_model.specs.Windows.{places, window_at, window_count};
ghost use Rattle.window_setting.specs.Defects.{AreClaimDefects};

use crate::draft::blank_sheet;
use detector_graph::Bits;
use std::alloc::{AllocError, Global};
use std::marker::Model;
use window_setting::Setting;

/// For each window a sheet with a bit for each of its detectors. What its claim is left with is
/// written there, to be compared with the problem of an answer.
#[derive(Drop)]
pub struct Sheets {
    by_window: Vec<Bits>,
}

impl Model for Sheets {
    ghost use Rattle.std.specs.Prelude.{Bool, List};

    ghost Value = { List (List Bool) };

    ghost view = { λ s. s.by_window.items };
}

impl Sheets {
    /// A sheet for each window.
    pub fn new(alloc: Global, setting: &Setting) -> Result<Sheets, AllocError>
        ensures { IfOk result (AreSheets setting.now) }
    {
        let windows = setting.window_count();
        let mut by_window = Vec::with_capacity(alloc, windows as usize)?;
        for window in 0..windows {
            by_window.push(blank_sheet(alloc, setting, window)?)?;
        }
        Ok(Sheets { by_window })
    }

    /// Writes the defects that a claim of the window with these links leaves it of these values of
    /// the detectors.
    pub fn write(&mut self, setting: &Setting, window: u32, values: &Bits, links: &[Bits])
        requires sheets { AreSheets setting.now self.old }
        requires window { window < window_count setting.now.plan }
        requires values { length values.now ≡ setting.now.graph.vertices }
        requires links { map length links.now ≡ map
            (λ x. length (places setting.now.graph setting.now.plan x window))
            (window_at setting.now.plan window).deps }
        ensures sheets { AreSheets setting.now self.new }
        ensures defects { AreClaimDefects setting.now window values.now links.now
            (slice_index_or self.new window []) }
        ensures others { (x : ℕ) → x ≢ window →
            slice_index_or self.new x [] ≡ slice_index_or self.old x [] }
    {
        let sheet = &mut self.by_window[window as usize];
        setting.write_defects(window, values, links, sheet);
    }

    /// The sheet of a window.
    pub fn sheet(&self, window: u32) -> &Bits
        requires { window < length self.now }
        ensures { slice_get self.now window ≡ Some result.now }
    {
        &self.by_window[window as usize]
    }
}
