ghost use Rattle.std.specs.Prelude.{◌≡◌, ◌∷◌, [], IfOk, None, false};

use super::*;
use detector_graph::{EdgeSet, Graph};
use pauli_frame::Frame;
use std::alloc::{AllocError, Global};
use std::test::*;

// Two operations: the one needs a window, the other's raw value comes in slot 3.
#[test]
fn an_operation_waits_for_windows_and_raw_values(rt: HostRuntime) -> Result<(), Fail> {
    let alloc = rt.alloc();
    let missing = vec![in alloc; 1, 0]?;
    let mut watch = ReleaseWatch::new(alloc, missing, Frame::new(alloc, 2)?)?;
    assert!(rt; watch.next_release(&[0, 3], 3).is_none());
    assert!(rt; watch.next_release(&[0, 3], 4) == Some(1));
    watch.release(1, true);
    assert!(rt; watch.released(1) == Some(true) && watch.released(0).is_none());
    assert!(rt; watch.next_release(&[0, 3], 4).is_none());
    Ok(())
}

/// A watch of one operation, which waits for one window and one observable.
fn watch_of_one(alloc: Global) -> Result<ReleaseWatch, AllocError>
    ensures { IfOk result (λ w. w ≡ record {
      missing = 1 ∷ [];
      bits = None ∷ [];
      frame = false ∷ [];
    }) }
{
    let missing = vec![in alloc; 1]?;
    ReleaseWatch::new(alloc, missing, Frame::new(alloc, 1)?)
}

// A patch is read at slot 1, and an operation in slot 2 needs what was read, which nothing flips.
#[test]
fn a_committed_window_is_missing_no_longer(rt: HostRuntime) -> Result<(), Fail> {
    let alloc = rt.alloc();
    let mut watch = watch_of_one(alloc)?;
    let graph = Graph::build(alloc, 0, Vec::new(alloc))?;
    assert!(rt; watch.next_release(&[1], 2).is_none());
    watch.take_window(&[0], &graph, &EdgeSet::new(alloc));
    assert!(rt; watch.next_release(&[1], 1).is_none());
    assert!(rt; watch.next_release(&[1], 2) == Some(0));
    Ok(())
}
