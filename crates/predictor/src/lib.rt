//! Guesses of what a window's dependency will flip, made before its result is there.
#![tactic(auto)]

ghost use Rattle.window_model.specs.declared.GuessView.{GuessView};
ghost use Rattle.std.specs.Prelude.{Bool};

mod kinds;

pub use kinds::{Near, Seeded, Zero};
use window_model::GuessView;

/// It means a relation between views and truth values: which guesses it may make of which bits.
pub trait Predictor {
    ghost may_guess: { Self → GuessView → Bool → Type 0 };

    /// Whether the source's result is guessed to flip the detector of the view's place: a value
    /// that stands in the relation with the view.
    fn guess(&self, view: &GuessView) -> bool
        ensures { may_guess self.now view.now result };
}

/// A reference to a predictor is one with the same relation.
impl<Q: Predictor> Predictor for &Q {
    ghost may_guess = { λ q. Q.may_guess q.now };

    fn guess(&self, view: &GuessView) -> bool {
        let inner: &Q = self;
        inner.guess(view)
    }
}

#[cfg(test)]
mod tests;
