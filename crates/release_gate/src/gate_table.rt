//! What each operation waits for.
ghost use Rattle.std.specs.Prelude.{◌≡◌, ◌<◌, Some, length, slice_get, slice_index};

use std::marker::Model;

/// For each operation the windows that it needs and its ready round.
pub struct Gates {
    pub(crate) needs: Vec<Vec<u32>>,
    pub(crate) rounds: Vec<u32>,
}

impl Drop for Gates {
    fn drop(self) {
        let Gates {
            needs: _,
            rounds: _,
        } = self;
    }
}

impl Model for Gates {
    ghost use Rattle.std.specs.Prelude.{map};
    ghost use Rattle.release_gate.specs.Gated.{GateTable};

    ghost Value = { GateTable };

    ghost view = { λ g. record {
      needs = map (λ v. v.items) g.needs.items;
      rounds = g.rounds.items;
    } };
}

impl Gates {
    /// The windows that own an edge whose mask has an odd number of the operation's observables,
    /// ascending: no other window's commit changes its bit.
    pub fn needs(&self, op: u32) -> &[u32]
        requires { op < length self.now.needs }
        ensures { slice_get self.now.needs op ≡ Some result.now }
    {
        self.needs[op as usize].as_slice()
    }

    /// For each operation its ready round.
    pub fn rounds(&self) -> &[u32]
        ensures { result.now ≡ self.now.rounds }
    {
        self.rounds.as_slice()
    }

    /// The slot after which the operation can be released whatever the errors are.
    pub fn ready_round(&self, op: u32) -> u32
        requires { op < length self.now.rounds }
        ensures { result ≡ slice_index self.now.rounds op }
    {
        self.rounds[op as usize]
    }
}
