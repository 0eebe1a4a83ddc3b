ghost use Rattle.std.specs.Prelude.{◌≡◌, IfOk, [], ◌∷◌};
ghost use Rattle.poison_cascade.specs.Books.{TicketBook, opened, stood, taken, vanished};
ghost use Rattle.window_model.specs.declared.Origin.TheVariants.{Guess, Ticket};

use super::*;
use std::alloc::{AllocError, Global};
use std::test::*;
use window_model::Origin;

// Three windows, of which each depends on the one before.
fn chain(alloc: Global) -> Result<Book, AllocError>
    ensures { IfOk result (λ b. b ≡ opened ([] ∷ (0 ∷ []) ∷ (1 ∷ []) ∷ []) 1) }
{
    let mut deps = Vec::with_capacity(alloc, 3)?;
    deps.push(Vec::new(alloc))?;
    deps.push(vec![in alloc; 0]?)?;
    deps.push(vec![in alloc; 1]?)?;
    Book::new(alloc, &deps, 1)
}

// Window 1 is decoded on a guess about window 0, and window 2 on the result of window 1.
fn build(book: &mut Book)
    requires { book.old ≡ opened ([] ∷ (0 ∷ []) ∷ (1 ∷ []) ∷ []) 1 }
    ensures { book.new ≡ stood (stood (taken (stood (taken (taken book.old 0 []) 1 (Guess ∷ [])) 1)
        2 (Ticket 1 ∷ [])) 2) 0 }
{
    book.take(0, &[]);
    book.take(1, &[Origin::Guess]);
    book.stand(1);
    book.take(2, &[Origin::Ticket(1)]);
    book.stand(2);
    book.stand(0);
}

#[test]
fn a_poison_takes_down_what_was_built_on_it(rt: HostRuntime) -> Result<(), Fail> {
    let mut book = chain(rt.alloc())?;
    build(&mut book);
    assert!(rt; book.next_unverified() == Some((1, 0)) && book.next_orphan().is_none());
    book.vanish(1);
    assert!(rt; book.next_unverified().is_none() && book.next_orphan() == Some(2));
    book.vanish(2);
    assert!(rt; book.next_unverified().is_none() && book.next_orphan().is_none());
    let ticket = book.take(1, &[Origin::Ticket(0)]);
    assert!(rt; ticket == 3 && book.tickets() == 4 && book.taken(1) == 2);
    Ok(())
}

#[test]
fn a_verified_guess_rests_on_the_ticket(rt: HostRuntime) -> Result<(), Fail> {
    let mut book = chain(rt.alloc())?;
    build(&mut book);
    if let Some((window, source)) = book.next_unverified() {
        book.confirm(source, window);
    }
    assert!(rt; book.next_unverified().is_none() && book.next_orphan().is_none());
    assert!(rt; book.standing(0) == Some(0) && book.standing(1) == Some(1));
    Ok(())
}
