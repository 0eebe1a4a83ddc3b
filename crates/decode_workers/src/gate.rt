//! What a worker passes before and after it decodes.
use std::sync::Wait;

/// What each worker passes before it decodes a window, and after it. It says nothing of answers,
/// and no lock of the table is held there.
pub trait Gate {
    fn before_decode<R: Wait>(&self, rt: &R, window: u32);

    fn after_decode<R: Wait>(&self, rt: &R, window: u32);
}

/// A gate that holds nobody.
#[derive(Drop)]
pub struct OpenGate;

impl Gate for OpenGate {
    fn before_decode<R: Wait>(&self, _rt: &R, _window: u32) {}

    fn after_decode<R: Wait>(&self, _rt: &R, _window: u32) {}
}
