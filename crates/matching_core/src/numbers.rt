//! The numbers as a certificate.
ghost use Rattle.std.specs.Prelude.{◌≡◌, ◌<◌, ◌/◌, IfOk, length};
ghost use Rattle.matching_core.specs.Searches.{AreNumbers};

use blossom_forest::Duals;
use blossom_nest::Nest;
use dual_certificate::Cert;
use std::alloc::{AllocError, Global};

/// The numbers of all vertices, and those above 0 of all sets with children.
pub(crate) fn certificate(alloc: Global, nest: &Nest, duals: &Duals) -> Result<Cert, AllocError>
    requires { AreNumbers nest.now.vertices duals.now.vertex.items duals.now.set.items }
    ensures { IfOk result (λ cert. cert.vertex ≡ duals.now.vertex.items) }
{
    let mut sets = numbered_sets(alloc, &duals.set)?;
    for vertex in 0..nest.vertices() {
        put_in_sets(nest, vertex, &mut sets)?;
    }
    sets.retain(|set| !set.0.is_empty());
    Ok(Cert {
        vertex: Vec::from_slice(alloc, &duals.vertex)?,
        sets,
    })
}

/// Sets without members, with these numbers.
fn numbered_sets(alloc: Global, numbers: &[i64]) -> Result<Vec<(Vec<u32>, i64)>, AllocError>
    ensures { IfOk result (λ sets. length sets.items ≡ length numbers.now) }
{
    let mut sets = Vec::with_capacity(alloc, numbers.len())?;
    for number in numbers {
        sets.push((Vec::new(alloc), *number))?;
    }
    Ok(sets)
}

/// Adds a vertex to each set with a number above 0 that holds it.
fn put_in_sets(nest: &Nest, vertex: u32, sets: &mut Vec<(Vec<u32>, i64)>) -> Result<(), AllocError>
    requires vertex { vertex < nest.now.vertices }
    requires count { length sets.old.items ≡ nest.now.vertices / 2 }
    ensures { length sets.new.items ≡ length sets.old.items }
{
    nest.is_nest();
    let mut here = vertex;
    for _step in 0..nest.vertices() {
        let Some(above) = nest.parent(here) else {
            return Ok(());
        };
        put_in_set(sets, (above - nest.vertices()) as usize, vertex)?;
        here = above;
    }
    Ok(())
}

/// Adds a vertex to a set, where its number is above 0.
fn put_in_set(sets: &mut Vec<(Vec<u32>, i64)>, place: usize, vertex: u32) -> Result<(), AllocError>
    requires { place < length sets.old.items }
    ensures { length sets.new.items ≡ length sets.old.items }
{
    let set = &mut sets[place];
    if set.1 > 0 {
        set.0.push(vertex)?;
    }
    Ok(())
}
