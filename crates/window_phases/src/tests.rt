ghost use Rattle.std.specs.Prelude.{◌≡◌, IfOk, [], ◌∷◌, false};
ghost use Rattle.poison_cascade.specs.Books.{opened};

use super::*;
use std::alloc::{AllocError, Global};
use std::test::*;
use window_model::Origin;

// Two windows, of which the second depends on the first.
fn two(alloc: Global) -> Result<Phases, AllocError>
    ensures { IfOk result (λ p. p ≡ record {
      book = opened ([] ∷ (0 ∷ []) ∷ []) 1;
      done = false ∷ false ∷ [];
    }) }
{
    let mut deps = Vec::with_capacity(alloc, 2)?;
    deps.push(Vec::new(alloc))?;
    deps.push(vec![in alloc; 0]?)?;
    Phases::new(alloc, &deps, 1)
}

#[test]
fn a_window_is_committed_after_what_it_rests_on(rt: HostRuntime) -> Result<(), Fail> {
    let mut phases = two(rt.alloc())?;
    phases.claim(0, &[]);
    phases.claim(1, &[Origin::Guess]);
    phases.hold(1);
    assert!(rt; phases.next_commit().is_none());
    phases.hold(0);
    if let Some((window, source)) = phases.book().next_unverified() {
        phases.verify(source, window);
    }
    assert!(rt; phases.next_commit() == Some(0));
    phases.commit(0);
    assert!(rt; phases.is_done(0) && phases.next_commit() == Some(1));
    Ok(())
}
