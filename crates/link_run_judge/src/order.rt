//! The line of a head that is not in order.

ghost use Rattle.std.specs.Prelude.{◌≡◌, ◌&&◌, not, is_some};
ghost use Rattle.link_report.specs.Fault.{fault_text};
ghost use Rattle.link_run.specs.Writers.{AfterWrite, on_report};
ghost use Rattle.link_run_judge.specs.Unpacking.{order_line};

use link_report::Fault;
use link_run::Writers;
use link_transfer::OrderFault;
use link_wire::{IoFault, OutDevice};

/// If a head has a fault of the order, writes its line to the report, and sets `good` to false.
#[inline(always)]
pub fn tell_order<W: OutDevice, E: OutDevice>(
    offset: u64,
    fault: Option<OrderFault>,
    writers: &mut Writers<W, E>,
    good: &mut bool,
) -> Result<(), IoFault>
    ensures gives { AfterWrite W.state E.state writers.old writers.new (on_report (order_line
        offset fault)) result }
    ensures good { good.new ≡ (good.old && not (is_some fault)) }
{
    match fault {
        Some(fault) => {
            *good = false;
            report_order(&Fault::Order(offset, fault), writers)
        }
        None => Ok(()),
    }
}

/// Writes the line of a fault to the report. The run goes on, so the status is dropped.
#[cold]
#[inline(never)]
fn report_order<W: OutDevice, E: OutDevice>(
    fault: &Fault,
    writers: &mut Writers<W, E>,
) -> Result<(), IoFault>
    ensures { AfterWrite W.state E.state writers.old writers.new (on_report (fault_text fault.now))
        result }
{
    match writers.report_fault(fault) {
        Ok(_) => Ok(()),
        Err(fault) => Err(fault),
    }
}
