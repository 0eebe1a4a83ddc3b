//! The drafts of all windows.
ghost use Rattle.std.specs.Prelude.{◌≡◌, ◌≢◌, ◌<◌, ◌++◌, ◌∷◌, [], All, IfOk, length};
ghost use Rattle.claim_drafts.specs.Drafts.{AreDrafts, IsDraftOf, IsTaken, drafts_of};
ghost use Rattle.window_model.specs.Windows.{window_count};

use crate::Draft;
use std::alloc::{AllocError, Global};
use std::marker::Model;
use window_setting::Setting;

/// The drafts of one window.
#[derive(Drop)]
struct Pile {
    drafts: Vec<Draft>,
}

impl Model for Pile {
    ghost use Rattle.std.specs.Prelude.{List};
    ghost use Rattle.claim_drafts.specs.Drafts.{Draft};

    ghost Value = { List Draft };

    ghost view = { λ p. p.drafts.items };
}

impl Pile {
    /// So many drafts of a window.
    fn new(alloc: Global, setting: &Setting, window: u32, count: u32) -> Result<Pile, AllocError>
        requires { window < window_count setting.now.plan }
        ensures count { IfOk result (λ pile. length pile ≡ count) }
        ensures fit { IfOk result (All (IsDraftOf setting.now window)) }
    {
        let mut drafts = Vec::with_capacity(alloc, count as usize)?;
        for _draft in 0..count {
            drafts.push(Draft::new(alloc, setting, window)?)?;
        }
        Ok(Pile { drafts })
    }

    /// Takes the last of them.
    fn take(&mut self) -> Draft
        requires { self.old ≢ [] }
        ensures { self.old ≡ self.new ++ result ∷ [] }
    {
        self.drafts.pop().unwrap()
    }
}

/// For each window the drafts of the claims that it may have.
#[derive(Drop)]
pub struct Drafts {
    piles: Vec<Pile>,
}

impl Model for Drafts {
    ghost use Rattle.std.specs.Prelude.{List};
    ghost use Rattle.claim_drafts.specs.Drafts.{Draft};

    ghost Value = { List (List Draft) };

    ghost view = { λ d. d.piles.items };
}

impl Drafts {
    /// So many drafts for each window.
    ///
    /// They take room in proportion to their number times the numbers of detectors and of places of
    /// all windows.
    pub fn new(alloc: Global, setting: &Setting, each: u32) -> Result<Drafts, AllocError>
        ensures { IfOk result (AreDrafts setting.now (λ w. each)) }
    {
        let windows = setting.window_count();
        let mut piles = Vec::with_capacity(alloc, windows as usize)?;
        for window in 0..windows {
            piles.push(Pile::new(alloc, setting, window, each)?)?;
        }
        Ok(Drafts { piles })
    }

    /// Takes a draft of a window that has one left.
    pub fn take(&mut self, window: u32) -> Draft
        requires window { window < length self.old }
        requires left { drafts_of self.old window ≢ [] }
        ensures { IsTaken window result self.old self.new }
    {
        let pile = &mut self.piles[window as usize];
        pile.take()
    }
}
