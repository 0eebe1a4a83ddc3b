//! What kind of plan is asked for, and how large its windows are.

ghost use Rattle.std.specs.Prelude.{◌≡◌, ◌≤◌, ◌+◌, unwrap_or};

use window_plan::PlanKind;

/// The kind of a plan, and the sizes of its windows where they are given: the slots of a block (1
/// to 4,096), and the edges that a window's buffer reaches beyond its commit region (0 to 4,096). A
/// block that isn't given has one slot more than the code's distance, and a buffer as many edges as
/// the distance.
#[derive(Clone, Copy, Debug, PartialEq, Eq)]
pub struct PlanSizes {
    pub kind: PlanKind,
    pub commit: Option<u32>,
    pub buffer: Option<u32>,
}

impl PlanSizes {
    /// The slots of a block.
    pub(crate) fn commit_at(&self, distance: u32) -> u32
        requires { distance ≤ 11 }
        ensures { result ≡ unwrap_or self.now.commit (distance + 1) }
    {
        self.commit.unwrap_or(distance + 1)
    }

    /// The edges of a buffer.
    pub(crate) fn buffer_at(&self, distance: u32) -> u32
        ensures { result ≡ unwrap_or self.now.buffer distance }
    {
        self.buffer.unwrap_or(distance)
    }
}
