//! Regions of qubits, and the places in them.

use std::marker::Model;

/// A rectangle of qubits, by its first row and column and the numbers of its rows and columns.
#[derive(Clone, Copy)]
pub struct Region {
    pub row: u32,
    pub col: u32,
    pub height: u32,
    pub width: u32,
}

impl Model for Region {
    ghost use Rattle.surface_model.specs.Layout.{Region as Rectangle};

    ghost Value = { Rectangle };

    ghost view = { λ r. record {
      row = r.row;
      column = r.col;
      height = r.height;
      width = r.width;
    } };

    ghost inverse = { λ r. record {
      row = r.row;
      col = r.column;
      height = r.height;
      width = r.width;
    } };
}

/// The place of a check: between the qubits whose rows are its own or the one above, and whose
/// columns are its own or the one to the left.
#[derive(Clone, Copy)]
pub struct Corner {
    pub row: u32,
    pub col: u32,
}

impl Model for Corner {
    ghost use Rattle.surface_model.specs.Layout.{Place};

    ghost Value = { Place };

    ghost view = { λ c. record { row = c.row; column = c.col } };

    ghost inverse = { λ c. record { row = c.row; col = c.column } };
}

/// The place of a data qubit.
#[derive(Clone, Copy)]
pub struct Qubit {
    pub row: u32,
    pub col: u32,
}

impl Model for Qubit {
    ghost use Rattle.surface_model.specs.Layout.{Place};

    ghost Value = { Place };

    ghost view = { λ q. record { row = q.row; column = q.col } };

    ghost inverse = { λ q. record { row = q.row; col = q.column } };
}

/// The qubits of a check: the first `count` of these, by row and then by column.
#[derive(Clone, Copy)]
pub struct Support {
    pub count: u32,
    pub qubits: [Qubit; 4],
}
