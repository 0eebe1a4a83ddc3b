//! Guesses that are always a flip.

use predictor::Predictor;
use window_model::GuessView;

/// It guesses that everything is flipped.
#[derive(Clone, Copy, Drop)]
pub(crate) struct Always;

impl Predictor for Always {
    ghost use Rattle.std.specs.Prelude.{◌≡◌, true};

    ghost may_guess = { λ _ _ answer. answer ≡ true };

    fn guess(&self, _view: &GuessView) -> bool {
        true
    }
}
