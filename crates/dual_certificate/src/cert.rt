//! Certificates as a matcher hands them over.
ghost use Rattle.std.specs.Prelude.{◌≡◌, ◌<◌, ◌^◌, ℕ, ℤ, List, length, slice_index_or};

use std::marker::Model;

/// A number for each member of a problem and for some odd sets of members.
///
/// The members are named by their places in the problem's table of distances.
#[derive(Drop)]
pub struct Cert {
    /// One for each member.
    pub vertex: Vec<i64>,
    /// Sets by their members, ascending, each with a number above 0.
    pub sets: Vec<(Vec<u32>, i64)>,
}

impl Model for Cert {
    ghost use Rattle.std.specs.Prelude.{map};
    ghost use Rattle.matching_model.specs.Certificates.{Certificate};

    ghost Value = { Certificate };

    ghost view = { λ c. record {
      vertex = c.vertex.items;
      sets = map (λ s. (s.0.items, s.1)) c.sets.items;
    } };
}

impl Cert {
    /// How many sets there are.
    pub(crate) fn set_count(&self) -> usize
        ensures count { result ≡ length self.now.sets }
        ensures few { result < 2 ^ 63 }
    {
        self.sets.len()
    }

    /// The set at this place.
    pub(crate) fn members(&self, at: usize) -> &[u32]
        requires { at < length self.now.sets }
        ensures { (d : List ℕ × ℤ) → result.now ≡ (slice_index_or self.now.sets at d).0 }
    {
        &self.sets[at].0
    }

    /// Its number.
    pub(crate) fn number(&self, at: usize) -> i64
        requires { at < length self.now.sets }
        ensures { (d : List ℕ × ℤ) → result ≡ (slice_index_or self.now.sets at d).1 }
    {
        self.sets[at].1
    }
}
