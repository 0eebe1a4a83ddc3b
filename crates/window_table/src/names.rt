//! What the type of a table names.
ghost use Rattle.std.specs.Prelude.{Bool, ℕ};
ghost use Rattle.std.specs.Bool.{⊤};
ghost use Rattle.window_model.specs.declared.GuessView.{GuessView};
ghost use Rattle.window_model.specs.Decoder.{Task};
ghost use Rattle.window_table.specs.Readings.{no_task};

use std::marker::Brand;

/// What the core of a table decodes, how often a window may be given up in it and still be guessed
/// at again, and which guesses may be made. Each run picks them.
pub trait NamesSetting {
    ghost setting: { Task };

    ghost retries: { ℕ };

    ghost may_guess: { GuessView → Bool → Type 0 };
}

/// What a call picks that passes `Brand`.
impl NamesSetting for Brand {
    ghost setting = { no_task };

    ghost retries = { 0 };

    ghost may_guess = { λ view bit. ⊤ };
}
