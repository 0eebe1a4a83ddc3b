//! A schedule that breaks no rule.
ghost use Rattle.std.specs.Prelude.{◌≡◌, None, Some, IfOk, IfErr, option_map};
ghost use Rattle.surface_model.specs.Layout.{last_slot};
ghost use Rattle.surface_model.specs.Rules.{rule_fault};
ghost use Rattle.surface_model.specs.Accepted.{IsAccepted};
ghost use Rattle.schedule_rules.specs.Least.{reported};

use crate::rules::rule_fault;
use schedule_reader::{Schedule, ScheduleFault};
use std::marker::Model;

/// Why a schedule is refused.
#[derive(Clone, Copy, Debug, PartialEq, Eq)]
pub enum RuleError {
    Fault(ScheduleFault),
}

/// A schedule that breaks no rule.
pub struct Program {
    schedule: Schedule,
}

impl Drop for Program {
    fn drop(self) {
        let Program { schedule: _ } = self;
    }
}

impl Model for Program {
    ghost use Rattle.std.specs.Prelude.{◌≡◌, None};
    ghost use Rattle.surface_model.specs.Schedules.{Schedule as Whole};
    ghost use Rattle.surface_model.specs.Rules.{rule_fault};

    ghost Value = { Whole };

    ghost view = { λ p. p.schedule };

    ghost invariant = { λ p. rule_fault p.schedule ≡ None };
}

/// Checks a schedule against the rules of whole schedules. Where it breaks one, the answer is the
/// first rule that it breaks, at the least line that breaks it. The call takes no memory.
pub fn check(schedule: Schedule) -> Result<Program, RuleError>
    ensures program { IfOk result (λ p. p ≡ schedule) }
    ensures fault { IfErr result (λ e. option_map (λ broken. RuleError.Fault (reported broken))
        (rule_fault schedule) ≡ Some e) }
{
    match rule_fault(&schedule) {
        Some(fault) => Err(RuleError::Fault(fault)),
        None => Ok(Program { schedule }),
    }
}

impl Program {
    /// The schedule is accepted: its ranges hold, and it breaks no rule.
    pub fn is_accepted(&self)
        ensures { IsAccepted self.now }
    {
        self.schedule.is_read();
    }

    pub fn schedule(&self) -> &Schedule
        ensures schedule { result.now ≡ self.now }
        ensures sound { rule_fault self.now ≡ None }
    {
        &self.schedule
    }

    /// The last slot in which a patch is read.
    pub fn last_slot(&self) -> u32
        ensures { result ≡ last_slot self.now }
    {
        let mut last = 0;
        for read in &self.schedule.reads {
            last = last.max(read.slot);
        }
        last
    }
}
