use crate::Predictor;
use rand_core::utils::NextWord;
use rand_pcg::Lcg64Xsh32;
use window_model::GuessView;

/// It guesses that nothing is flipped.
#[derive(Clone, Copy, Drop)]
pub struct Zero;

impl Predictor for Zero {
    ghost use Rattle.std.specs.Prelude.{◌≡◌};
    ghost use Rattle.predictor.specs.Kinds.{zero_answer};

    ghost may_guess = { λ _ view answer. answer ≡ zero_answer view };

    fn guess(&self, _view: &GuessView) -> bool {
        false
    }
}

/// It guesses that a defect is flipped where an edge of the source joins it with a defect of the
/// source's own cell: the two then may be the ends of one error.
#[derive(Clone, Copy, Drop)]
pub struct Near;

impl Predictor for Near {
    ghost use Rattle.std.specs.Prelude.{◌≡◌};
    ghost use Rattle.predictor.specs.Kinds.{near_answer};

    ghost may_guess = { λ _ view answer. answer ≡ near_answer view };

    fn guess(&self, view: &GuessView) -> bool {
        view.value && view.linked
    }
}

/// It guesses by random bits: for each source and place the lowest bit of the first word that the
/// generator PCG XSH RR 64/32 of this seed gives on the stream `source * 2^32 + place`. The same
/// seed always makes the same guesses.
#[derive(Clone, Copy, Drop)]
pub struct Seeded {
    pub seed: u64,
}

/// How many streams there are for one source: one for each place.
const STREAMS_OF_A_SOURCE: u64 = 1 << 32;

impl Predictor for Seeded {
    ghost use Rattle.std.specs.Prelude.{◌≡◌};
    ghost use Rattle.predictor.specs.Kinds.{seeded_answer};

    ghost may_guess = { λ q view answer. answer ≡ seeded_answer q.seed view };

    fn guess(&self, view: &GuessView) -> bool {
        let stream = u64::from(view.source) * STREAMS_OF_A_SOURCE + u64::from(view.place);
        Lcg64Xsh32::new(self.seed, stream).next_word() % 2 == 1
    }
}
