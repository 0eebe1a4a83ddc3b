//! A predictor whose guesses may all be made at a table.
ghost use Rattle.std.specs.Prelude.{◌≡◌};
ghost use Rattle.window_table.specs.Cores.{IsWithin};

use crate::names::NamesSetting;
use predictor::Predictor;
use std::marker::{Model, PhantomData};
use window_model::GuessView;

/// A predictor, each of whose guesses may be made at a table of this setting.
#[derive(Drop)]
pub(crate) struct Guesser<Q: Predictor, Z: NamesSetting> {
    predictor: Q,
    names: PhantomData<Z>,
}

impl<Q: Predictor, Z: NamesSetting> Model for Guesser<Q, Z> {
    ghost use Rattle.window_table.specs.Cores.{IsWithin};

    ghost Value = { Q };

    ghost view = { λ g. g.predictor };

    ghost invariant = { λ g. IsWithin (Q.may_guess g.predictor) Z.may_guess };
}

impl<Q: Predictor, Z: NamesSetting> Guesser<Q, Z> {
    pub(crate) fn new(predictor: Q) -> Guesser<Q, Z>
        requires { IsWithin (Q.may_guess predictor) Z.may_guess }
    {
        Guesser {
            predictor,
            names: PhantomData,
        }
    }
}

impl<Q: Predictor, Z: NamesSetting> Predictor for Guesser<Q, Z> {
    ghost may_guess = { λ _ view bit. Z.may_guess view bit };

    fn guess(&self, view: &GuessView) -> bool {
        self.predictor.guess(view)
    }
}
