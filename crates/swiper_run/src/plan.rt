//! The plan of a schedule, printed.
ghost use Rattle.std.specs.Prelude.{◌≡◌, ◌≢◌, ◌++◌, List, Some, length, true, ℕ};
ghost use Rattle.port_io.specs.Port.{Rose};
ghost use Rattle.port_io.specs.Traffic.{KeepsCounts, Moves, taken};
ghost use Rattle.port_io.specs.declared.port.TapeByte.{TapeByte};
ghost use Rattle.measure_map.specs.Placed.{Placed};
ghost use Rattle.run_header.specs.Openings.{IsHeader, IsOpened};
ghost use Rattle.run_header.specs.declared.sizes.PlanSizes.{PlanSizes as Sizes};
ghost use Rattle.swiper_run.specs.Answers.{IsAnswerTo, is_of_accepted};
ghost use Rattle.swiper_run.specs.declared.words.Asked.TheVariants.{Plan};

use crate::Status;
use crate::top::{conclude, conds_of};
use plan_report::plan_text;
use port_io::Port;
use schedule_rules::Program;
use std::alloc::Global;
use window_setting::Setting;

/// Puts the plan of an opened schedule.
pub(crate) fn put_plan<P: Port>(
    alloc: Global,
    port: &mut P,
    program: &Program,
    setting: &Setting,
) -> Status
    requires { length program.now.conds ≡ length setting.now.operations }
    ensures answer { (sizes : Sizes) (header : List ℕ) (measured : Placed) → IsHeader header →
        IsOpened sizes header program.now measured setting.now →
        (ran : List TapeByte) × Moves P.Port port.old port.new ran
        × IsAnswerTo (Some (Plan sizes)) (P.left port.new) (P.read_faults port.old)
        (P.read_faults port.new) result (taken header ++ ran) }
    ensures accepted { is_of_accepted result ≡ true }
    ensures no_read_fault { result ≢ Status.ReadFault }
    ensures write_fault { result ≡ Status.WriteFault →
        Rose (P.write_faults port.old) (P.write_faults port.new) }
    ensures counts { KeepsCounts P.Port port.old port.new }
{
    let conds = conds_of(program);
    match plan_text(alloc, setting.graph(), &setting.plan, &setting.gates, conds) {
        Ok(text) => conclude(port, text.as_bytes(), Status::Ok),
        Err(_) => Status::Memory,
    }
}
