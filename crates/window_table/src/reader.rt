//! What the reader brought, and what it was told.
ghost use Rattle.std.specs.Prelude.{◌≡◌, ◌≢◌, ◌<◌, ◌≤◌, ◌++◌, ◌∷◌, [], Bool, IfOk, Some, false, length, map, true, vec_capacity, vec_len};
ghost use Rattle.std.specs.Arc.{arc_value};
ghost use Rattle.core_state.specs.Arrivals.{arrivals_in};
ghost use Rattle.core_state.specs.States.{events_of};
ghost use Rattle.window_table.specs.Readings.{AreReleased, AreTold, MayBring, no_readings, told_at, with_bit, with_slot};

use crate::names::NamesSetting;
use detector_graph::Folded;
use std::alloc::{AllocError, Global};
use std::marker::{Model, PhantomData};
use std::sync::Arc;
use window_core::Core;
use window_setting::Setting;

/// The slots that a table's reader brought, and the bits of operations that it was told.
pub struct Reader<Z: NamesSetting> {
    given: Vec<Arc<Folded>>,
    told: Vec<Option<bool>>,
    names: PhantomData<Z>,
}

impl<Z: NamesSetting> Drop for Reader<Z> {
    fn drop(self) {
        let Reader {
            given: _,
            told: _,
            names: _,
        } = self;
    }
}

impl<Z: NamesSetting> Model for Reader<Z> {
    ghost use Rattle.std.specs.Prelude.{length, map, vec_capacity};
    ghost use Rattle.std.specs.Arc.{arc_value};
    ghost use Rattle.window_table.specs.Readings.{IsReaderOf, Readings};

    ghost Value = { Readings };

    ghost view = { λ r. record { given = map arc_value r.given.items; told = r.told.items } };

    ghost invariant = { λ r. IsReaderOf Z.setting (length r.told.items) (vec_capacity r.given) };
}

impl<Z: NamesSetting> Reader<Z> {
    /// Nothing was brought or told. It takes the room for all that will be.
    pub(crate) fn new(alloc: Global, setting: &Setting) -> Result<Reader<Z>, AllocError>
        requires { setting.now ≡ Z.setting }
        ensures { IfOk result (λ r. r ≡ no_readings Z.setting) }
    {
        let given = Vec::with_capacity(alloc, setting.last_slot as usize + 1)?;
        let told = vec![in alloc; None; setting.operation_count() as usize]?;
        Ok(Reader {
            given,
            told,
            names: PhantomData,
        })
    }

    /// What always holds: there is a place for the bit of each operation.
    pub fn is_reader(&self)
        ensures { length self.now.told ≡ length Z.setting.operations }
    {
        let _ = &self.told;
    }

    /// The slots that were brought.
    pub(crate) fn given(&self) -> &[Arc<Folded>]
        ensures { map arc_value result.now ≡ self.now.given }
    {
        &self.given
    }

    /// The bit that was told of an operation.
    pub fn told_of(&self, op: u32) -> Option<bool>
        requires { op < length Z.setting.operations }
        ensures { result ≡ told_at self.now op }
    {
        self.told[op as usize]
    }

    /// Whether this slot may be brought. It costs a look at the operations.
    pub(crate) fn may_bring(&self, setting: &Setting, slot: u32) -> bool
        requires { setting.now ≡ Z.setting }
        ensures yes { result ≡ true → MayBring Z.setting self.now slot }
        ensures no { result ≡ false → ¬ MayBring Z.setting self.now slot }
    {
        if !self.is_next(setting, slot) {
            return false;
        }
        self.are_told(setting, slot)
    }

    /// Whether it is the next slot, and not past the last.
    fn is_next(&self, setting: &Setting, slot: u32) -> bool
        ensures next { result ≡ true → slot ≡ length self.now.given }
        ensures in_range { result ≡ true → slot ≤ setting.now.last_slot }
        ensures no { result ≡ false → ¬ ((slot ≡ length self.now.given)
            × (slot ≤ setting.now.last_slot)) }
    {
        self.given().len() == slot as usize && slot <= setting.last_slot
    }

    /// Whether the bit of each operation of these slots was told.
    fn are_told(&self, setting: &Setting, slot: u32) -> bool
        requires { setting.now ≡ Z.setting }
        ensures yes { result ≡ true → AreTold setting.now self.now slot }
        ensures no { result ≡ false → ¬ AreTold setting.now self.now slot }
    {
        self.is_reader();
        for op in 0..setting.operation_count() {
            if setting.operation(op).slot <= slot && self.told_of(op).is_none() {
                return false;
            }
        }
        true
    }

    /// A slot was brought. There is room for it, so it takes no memory.
    pub(crate) fn bring(&mut self, folded: Arc<Folded>)
        requires { length self.old.given ≤ Z.setting.last_slot }
        ensures { self.new ≡ with_slot self.old (arc_value folded) }
    {
        add(&mut self.given, folded);
    }

    /// The bit of an operation was told.
    pub(crate) fn tell(&mut self, op: u32, bit: bool)
        requires { op < length Z.setting.operations }
        ensures { self.new ≡ with_bit self.old op bit }
    {
        self.told[op as usize] = Some(bit);
    }

    /// Whether just these slots arrived, and each bit that was told is that of a release.
    ///
    /// It costs time in proportion to the values.
    pub(crate) fn agrees(&self, core: &Core) -> bool
        requires { core.now.task ≡ Z.setting }
        ensures given { result ≡ true → arrivals_in (events_of core.now) ≡ self.now.given }
        ensures told { result ≡ true → AreReleased core.now self.now }
        ensures no { result ≡ false → ¬ ((arrivals_in (events_of core.now) ≡ self.now.given)
            × AreReleased core.now self.now) }
    {
        if !self.has_given(core) {
            return false;
        }
        self.are_released(core)
    }

    /// Whether just these slots arrived, each with its values.
    fn has_given(&self, core: &Core) -> bool
        ensures yes { result ≡ true → arrivals_in (events_of core.now) ≡ self.now.given }
        ensures no { result ≡ false → arrivals_in (events_of core.now) ≢ self.now.given }
    {
        core.has_arrivals(self.given())
    }

    /// Whether each bit that was told is that of a release.
    fn are_released(&self, core: &Core) -> bool
        requires { core.now.task ≡ Z.setting }
        ensures yes { result ≡ true → AreReleased core.now self.now }
        ensures no { result ≡ false → ¬ AreReleased core.now self.now }
    {
        self.is_reader();
        for op in 0..core.setting().operation_count() {
            if !is_told_as(self.told_of(op), core.released(op)) {
                return false;
            }
        }
        true
    }
}

/// Adds a slot where there is room, so that it can't fail.
fn add(given: &mut Vec<Arc<Folded>>, folded: Arc<Folded>)
    requires { vec_len given.old < vec_capacity given.old }
    ensures items { given.new.items ≡ given.old.items ++ folded ∷ [] }
    ensures room { vec_capacity given.old ≤ vec_capacity given.new }
{
    let _ = given.push(folded);
}

/// Whether a bit, if it was told, is the one that was released.
fn is_told_as(told: Option<bool>, released: Option<bool>) -> bool
    ensures yes { result ≡ true → (bit : Bool) → told ≡ Some bit → released ≡ Some bit }
    ensures no { result ≡ false → ¬ ((bit : Bool) → told ≡ Some bit → released ≡ Some bit) }
{
    match told {
        Some(bit) => is_bit(released, bit),
        None => true,
    }
}

/// Whether it is this bit.
fn is_bit(released: Option<bool>, bit: bool) -> bool
    ensures yes { result ≡ true → released ≡ Some bit }
    ensures no { result ≡ false → released ≢ Some bit }
{
    match released {
        Some(other) => other == bit,
        None => false,
    }
}
