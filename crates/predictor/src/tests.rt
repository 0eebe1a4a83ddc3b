ghost use Rattle.std.specs.Prelude.{◌≡◌};
ghost use Rattle.predictor.specs.Kinds.{near_answer};

use super::*;
use std::test::*;

// A guess of any predictor, through its bound.
fn guessed<Q: Predictor>(predictor: &Q, view: &GuessView) -> bool
    ensures { Q.may_guess predictor.now view.now result }
{
    predictor.guess(view)
}

// A guess through a reference is one of the predictor itself.
fn guessed_by_near(view: &GuessView) -> bool
    ensures { result ≡ near_answer view.now }
{
    guessed(&&Near, view)
}

fn view(source: u32, place: u32, value: bool, linked: bool) -> GuessView {
    GuessView {
        source,
        target: source,
        place,
        value,
        linked,
    }
}

#[test]
fn near_wants_a_linked_defect(rt: HostRuntime) -> Result<(), Fail> {
    for (value, linked) in [(false, false), (false, true), (true, false), (true, true)] {
        assert_eq!(rt;
            guessed_by_near(&view(0, 1, value, linked)),
            value && linked
        );
        assert!(rt; !guessed(&Zero, &view(0, 1, value, linked)));
    }
    Ok(())
}

// The bits were computed by another program, from the description of PCG XSH RR 64/32.
#[test]
fn seeded_gives_the_generators_bits(rt: HostRuntime) -> Result<(), Fail> {
    let seeded = Seeded { seed: 7 };
    let views = [
        (0, 0, true),
        (0, 1, false),
        (0, 2, false),
        (1, 0, false),
        (1, 1, true),
        (2, 9, true),
        (4095, 999999, false),
    ];
    for (source, place, bit) in views {
        assert_eq!(rt; guessed(&seeded, &view(source, place, false, false)), bit);
    }
    Ok(())
}
