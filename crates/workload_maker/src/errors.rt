//! Which errors happen.
ghost use Rattle.std.specs.Prelude.{◌≡◌, ◌%◌, ◌==◌, ◌++◌, ◌∷◌, [], if◌then◌else◌, IfOk, OnOk};
ghost use Rattle.error_map.specs.Seen.{mechanisms_of};
ghost use Rattle.workload_maker.specs.Draws.{generator_of, happening, rarity};

use error_map::Mechanism;
use rand_core::utils::NextWord;
use rand_pcg::Lcg64Xsh32;
use std::alloc::{AllocError, Global};

/// One error in so many happens.
const RARITY: u32 = 200;

/// Adds an error, where it happens: where the word that was drawn for it is divisible.
fn push_happening(
    errors: &mut Vec<Mechanism>,
    error: Mechanism,
    word: u32,
) -> Result<(), AllocError>
    ensures { OnOk result (errors.new.items
        ≡ errors.old.items ++ (if word % rarity == 0 then error ∷ [] else [])) }
{
    if word % RARITY == 0 {
        errors.push(error)?;
    }
    Ok(())
}

/// Those of the errors that happen. One word is drawn for each, in their order.
pub(crate) fn happening(
    alloc: Global,
    listed: &[Mechanism],
    seed: u64,
) -> Result<Vec<Mechanism>, AllocError>
    ensures { IfOk result (λ v. mechanisms_of v.items
        ≡ happening (generator_of seed) (mechanisms_of listed.now)) }
{
    let mut generator = Lcg64Xsh32::new(seed, 1);
    let mut errors = Vec::new(alloc);
    for error in listed {
        push_happening(&mut errors, *error, generator.next_word())?;
    }
    Ok(errors)
}
