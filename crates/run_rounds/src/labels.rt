//! The labels of a schedule's conditions.
ghost use Rattle.std.specs.Prelude.{◌≡◌, IfOk, map};
ghost use Rattle.surface_model.specs.Schedules.{CondLine};

use schedule_reader::{CondItem, Name};
use std::alloc::{AllocError, Global};

/// The labels of these conditions, in their order.
pub fn labels_of(alloc: Global, conds: &[CondItem]) -> Result<Vec<Name>, AllocError>
    ensures { IfOk result (λ labels. labels.items ≡ map (λ (c : CondLine). c.label) conds.now) }
{
    let mut labels = Vec::new(alloc);
    for cond in conds {
        labels.push(copy(&cond.label))?;
    }
    Ok(labels)
}

fn copy(name: &Name) -> Name
    ensures { result ≡ name.now }
{
    match Name::new(name.as_bytes()) {
        Some(copy) => copy,
        None => unreachable!(),
    }
}
