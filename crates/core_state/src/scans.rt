//! What may happen next of itself: the first turn.
ghost use Rattle.window_model.specs.TurnLaws.{NoCommit, NoComparison, NoDrop, NoRelease};
ghost use Rattle.cascade_laws.specs.Turns.{IsClaimTurn, IsCompareTurn, IsDropTurn};
ghost use Rattle.core_state.specs.States.{IsCommitFound, IsReleaseFound, machine_of};

use crate::CoreState;

impl CoreState {
    /// The window that is dropped first.
    pub fn next_drop(&self) -> Option<u32>
        ensures { IsDropTurn self.now.task self.now.retries (machine_of self.now) result }
    {
        self.phases.book().next_orphan()
    }

    /// The window, and its source, whose guess is compared first, where nothing is dropped.
    pub fn next_comparison(&self) -> Option<(u32, u32)>
        requires { NoDrop (machine_of self.now) }
        ensures { IsCompareTurn self.now.task self.now.retries (machine_of self.now) result }
    {
        self.phases.book().next_unverified()
    }

    /// The ticket, and its window, that is committed first, where nothing is dropped or compared.
    pub fn next_commit(&self) -> Option<(u32, u32)>
        requires drop { NoDrop (machine_of self.now) }
        requires comparison { NoComparison self.now.task (machine_of self.now) }
        ensures { IsCommitFound self.now.task self.now.retries (machine_of self.now) result }
    {
        let window = self.phases.next_commit()?;
        let ticket = self.phases.book().standing(window)?;
        Some((ticket, window))
    }

    /// The operation that is released first, where nothing is dropped, compared or committed.
    pub fn next_release(&self) -> Option<u32>
        requires drop { NoDrop (machine_of self.now) }
        requires comparison { NoComparison self.now.task (machine_of self.now) }
        requires commit { NoCommit self.now.task (machine_of self.now) }
        ensures { IsReleaseFound self.now.task self.now.retries (machine_of self.now) result }
    {
        self.releases
            .next_release(self.timeline.last_raws(), self.arrived)
    }

    /// The window that is claimed first, where nothing else can be done.
    pub fn next_claim(&self) -> Option<u32>
        requires drop { NoDrop (machine_of self.now) }
        requires comparison { NoComparison self.now.task (machine_of self.now) }
        requires commit { NoCommit self.now.task (machine_of self.now) }
        requires release { NoRelease self.now.task (machine_of self.now) }
        ensures { IsClaimTurn self.now.task self.now.retries (machine_of self.now) result }
    {
        let given = self.timeline.setting();
        self.phases.next_claim(&given.plan, self.arrived)
    }
}
