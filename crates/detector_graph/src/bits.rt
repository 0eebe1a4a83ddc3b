//! Lists of truth values.
ghost use Rattle.std.specs.Prelude.{◌≡◌, ◌≢◌, ◌<◌, ◌==◌, ℕ, Bool, true, false, List, length, replicate, slice_index_or, slice_set, IfOk};
ghost use Rattle.graph_model.specs.Parity.{◌⊕◌};

use std::alloc::{AllocError, Global};
use std::marker::Model;

/// One truth value for each of a range of places, from 0 on.
#[derive(Drop)]
pub struct Bits {
    values: Vec<bool>,
}

impl Model for Bits {
    ghost use Rattle.std.specs.Prelude.{Bool, List, vec_len, ◌<◌, ◌^◌};

    ghost Value = { List Bool };

    ghost view = { λ b. b.values.items };

    ghost invariant = { λ b. vec_len b.values < 2 ^ 32 };
}

impl Bits {
    /// So many values, none of them true.
    pub fn zeros(alloc: Global, len: u32) -> Result<Bits, AllocError>
        ensures { IfOk result (λ b. b ≡ replicate len false) }
    {
        let values = vec![in alloc; false; len as usize]?;
        Ok(Bits { values })
    }

    /// How many values there are.
    pub fn len(&self) -> u32
        ensures { result ≡ length self.now }
    {
        self.values.len() as u32
    }

    /// The value at a place.
    pub fn get(&self, at: u32) -> bool
        requires { at < length self.now }
        ensures { result ≡ slice_index_or self.now at false }
    {
        self.values[at as usize]
    }

    /// Changes the value at a place, and no other.
    pub fn set(&mut self, at: u32, value: bool)
        requires { at < length self.old }
        ensures { self.new ≡ slice_set self.old at value }
    {
        self.values[at as usize] = value;
    }

    /// Turns the value at a place, and no other.
    pub fn flip(&mut self, at: u32)
        requires { at < length self.old }
        ensures len { length self.new ≡ length self.old }
        ensures value { (v : ℕ) → slice_index_or self.new v false
            ≡ slice_index_or self.old v false ⊕ (at == v) }
    {
        self.values[at as usize] = !self.values[at as usize];
    }

    /// The same values again.
    pub fn copy(&self, alloc: Global) -> Result<Bits, AllocError>
        ensures { IfOk result (λ b. b ≡ self.now) }
    {
        Ok(Bits {
            values: Vec::from_slice(alloc, self.values.as_slice())?,
        })
    }

    /// Whether the two have the same values.
    pub fn same(&self, other: &Bits) -> bool
        ensures equal { result ≡ true → self.now ≡ other.now }
        ensures differ { result ≡ false → self.now ≢ other.now }
    {
        self.values.as_slice() == other.values.as_slice()
    }
}
