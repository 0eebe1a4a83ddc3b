//! A name of a patch or a label, kept inline.
ghost use Rattle.std.specs.Prelude.{◌≡◌, true, false, IfSome, IfNone, bytes_eq};
ghost use Rattle.surface_model.specs.Text.{is_name};

use crate::field::{NAME_BYTES, is_name};
use std::marker::Model;

/// 1 to 16 letters, digits and underscores.
#[derive(Drop)]
pub struct Name {
    bytes: [u8; NAME_BYTES],
    len: u8,
}

impl Model for Name {
    ghost use Rattle.std.specs.Prelude.{List, ℕ, take, ◌≤◌, ◌≡◌, true};
    ghost use Rattle.surface_model.specs.Limits.{most_name_bytes};
    ghost use Rattle.surface_model.specs.Text.{is_name};

    ghost Value = { List ℕ };

    ghost view = { λ n. take n.len n.bytes };

    ghost invariant = { λ n. (n.len ≤ most_name_bytes) × (is_name (take n.len n.bytes) ≡ true) };
}

impl Name {
    /// The name of these bytes, if they are one.
    pub fn new(bytes: &[u8]) -> Option<Name>
        ensures some { IfSome result (λ n. n ≡ bytes.now) }
        ensures none { IfNone result (is_name bytes.now ≡ false) }
    {
        if is_name(bytes) {
            Some(Name::of(bytes))
        } else {
            None
        }
    }

    /// The name of bytes that are one.
    pub(crate) fn of(bytes: &[u8]) -> Name
        requires { is_name bytes.now ≡ true }
        ensures { result ≡ bytes.now }
    {
        let mut kept = [0; NAME_BYTES];
        kept[..bytes.len()].copy_from_slice(bytes);
        Name {
            bytes: kept,
            len: bytes.len() as u8,
        }
    }

    pub fn as_bytes(&self) -> &[u8]
        ensures value { result.now ≡ self.now }
        ensures name { is_name self.now ≡ true }
    {
        &self.bytes[..self.len as usize]
    }

    /// Whether the name is spelled by these bytes.
    pub(crate) fn is_spelled(&self, bytes: &[u8]) -> bool
        ensures { result ≡ bytes_eq bytes.now self.now }
    {
        bytes == self.as_bytes()
    }
}
