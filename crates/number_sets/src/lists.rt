//! Lists of numbers, one for each window or link.
ghost use Rattle.std.specs.Prelude.{◌≡◌, ◌<◌, ◌≤◌, ◌++◌, ◌∷◌, List, [], length, IfOk, OnOk, Some, slice_get, slice_range};
ghost use Rattle.number_sets.specs.Lists.{before};

use std::alloc::{AllocError, Global};
use std::marker::Model;

/// Lists of numbers that lie in one flat list, by their place.
pub struct Lists {
    bounds: Vec<usize>,
    values: Vec<u32>,
}

impl Drop for Lists {
    fn drop(self) {
        let Lists {
            bounds: _,
            values: _,
        } = self;
    }
}

impl Model for Lists {
    ghost use Rattle.std.specs.Prelude.{ℕ, List};
    ghost use Rattle.number_sets.specs.Lists.{IsCut, lists_in};

    ghost Value = { List (List ℕ) };

    ghost view = { λ l. lists_in l.bounds.items l.values.items };

    ghost invariant = { λ l. IsCut l.bounds.items l.values.items };
}

impl Lists {
    /// No lists.
    pub fn new(alloc: Global) -> Result<Lists, AllocError>
        ensures { IfOk result (λ l. l ≡ []) }
    {
        let mut bounds = Vec::new(alloc);
        bounds.push(0)?;
        Ok(Lists {
            bounds,
            values: Vec::new(alloc),
        })
    }

    /// Adds a list at the end.
    pub fn push(&mut self, list: &[u32]) -> Result<(), AllocError>
        ensures ok { OnOk result (self.new ≡ self.old ++ list.now ∷ []) }
    {
        self.bounds.reserve(1)?;
        self.values.extend_from_slice(list)?;
        self.bounds.push_reserved(self.values.len());
        Ok(())
    }

    /// How many numbers the lists before this one have.
    pub fn before(&self, at: usize) -> usize
        requires { at ≤ length self.now }
        ensures { result ≡ before self.now at }
    {
        self.bounds[at]
    }

    /// The list at its place.
    pub fn get(&self, at: usize) -> &[u32]
        requires { at < length self.now }
        ensures { slice_get self.now at ≡ Some result.now }
    {
        part(&self.values, self.bounds[at], self.bounds[at + 1])
    }
}

fn part(values: &[u32], start: usize, end: usize) -> &[u32]
    requires order { start ≤ end }
    requires end { end ≤ length values.now }
    ensures { result.now ≡ slice_range values.now start end }
{
    &values[start..end]
}
