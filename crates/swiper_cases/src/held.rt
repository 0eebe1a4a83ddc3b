//! A gate that shows whether two windows were decoded at once.

use std::sync::{Mutex, Wait};
use swiper_run::Gate;

/// How often the decoding of window 0 looks whether window 1 was decoded, before it gives up.
const LOOKS: u32 = 100_000_000;

/// Holds the decoding of window 0 until window 1 was decoded.
pub(crate) struct Held {
    was_decoded: Mutex<bool>,
    was_seen: Mutex<bool>,
}

impl Drop for Held {
    fn drop(self) {
        let Held {
            was_decoded: _,
            was_seen: _,
        } = self;
    }
}

impl Held {
    /// A gate that nobody has passed.
    pub(crate) fn new() -> Held {
        Held {
            was_decoded: Mutex::new(false),
            was_seen: Mutex::new(false),
        }
    }

    /// Whether window 1 was decoded while the decoding of window 0 was held.
    pub(crate) fn was_seen<R: Wait>(&self, rt: &R) -> bool {
        *self.was_seen.lock(rt)
    }
}

impl Gate for Held {
    fn before_decode<R: Wait>(&self, rt: &R, window: u32) {
        if window != 0 {
            return;
        }
        for _ in 0..LOOKS {
            if *self.was_decoded.lock(rt) {
                *self.was_seen.lock(rt) = true;
                return;
            }
        }
    }

    fn after_decode<R: Wait>(&self, rt: &R, window: u32) {
        if window == 1 {
            *self.was_decoded.lock(rt) = true;
        }
    }
}
