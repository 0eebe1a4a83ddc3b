//! The qubits that are active in a slot.
ghost use Rattle.std.specs.Prelude.{All, IfOk};
ghost use Rattle.patch_layout.specs.Seen.{IsWellFormed};
ghost use Rattle.error_map.specs.Active.{AreQubits};

use crate::keys::{distinct, push_region};
use patch_layout::{Qubit, Region};
use std::alloc::{AllocError, Global};

/// The qubits of some regions, each once, by row and then by column.
pub(crate) fn qubits_of(alloc: Global, regions: &[Region]) -> Result<Vec<Qubit>, AllocError>
    requires { All IsWellFormed regions.now }
    ensures { IfOk result (λ v. AreQubits regions.now v.items) }
{
    let mut keys = Vec::new(alloc);
    for region in regions {
        push_region(&mut keys, *region, 0)?;
    }
    let keys = distinct(keys);
    let mut qubits = Vec::with_capacity(alloc, keys.len())?;
    for key in &keys {
        qubits.push(Qubit {
            row: key.row,
            col: key.col,
        })?;
    }
    Ok(qubits)
}
