//! The writers of a run: its output, its report, and the line that it writes next.

ghost use Rattle.std.specs.Prelude.{◌≡◌, [], OnOk};
ghost use Rattle.link_report.specs.Fault.{fault_text};

use crate::run::Status;
use link_report::{Fault, Line, fault_line};
use link_wire::{IoFault, OutDevice, Stop, TEXT_MAX, Text, write_whole};

/// The writers of a run.
#[derive(Drop)]
pub struct Writers<W, E> {
    pub output: W,
    pub report: E,
    /// The line that is written next.
    pub line: Line,
    /// The memory in which a text is made, if its device has no room of its own for it.
    page: [u8; TEXT_MAX],
}

impl<W: OutDevice, E: OutDevice> Writers<W, E> {
    ghost use Rattle.link_run.specs.Writers.{AfterWrite, AfterLastWrite, AfterStop, AfterSettle, next_line, on_output, on_report};

    /// Makes the writers of a run, with an empty line.
    pub(crate) fn new(output: W, report: E) -> Writers<W, E>
        ensures output { result.output ≡ output }
        ensures report { result.report ≡ report }
        ensures line { next_line result ≡ [] }
    {
        Writers {
            output,
            report,
            line: Line::new(),
            page: [0; TEXT_MAX],
        }
    }

    /// Returns the output and the report.
    pub fn into_parts(self) -> (W, E)
        ensures output { result.0 ≡ self.output }
        ensures report { result.1 ≡ self.report }
    {
        let Writers {
            output,
            report,
            line: _,
            page: _,
        } = self;
        (output, report)
    }

    /// Empties the line.
    pub fn clear_line(&mut self)
        ensures line { next_line self.new ≡ [] }
        ensures output { self.new.output ≡ self.old.output }
        ensures report { self.new.report ≡ self.old.report }
    {
        self.line.clear();
    }

    /// Writes the line to the output. The line stays as it is.
    pub fn write_line(&mut self) -> Result<(), IoFault>
        ensures gives { AfterWrite W.state E.state self.old self.new
            (on_output (next_line self.old)) result }
        ensures report { self.new.report ≡ self.old.report }
        ensures line { next_line self.new ≡ next_line self.old }
    {
        write_whole(&mut self.output, &self.line)
    }

    /// Writes a text to the output.
    ///
    /// The text is made in the output's own memory if that has room for it. This saves a copy.
    #[inline(always)]
    pub fn write_text<T: Text>(&mut self, text: &T) -> Result<(), IoFault>
        ensures gives { AfterWrite W.state E.state self.old self.new
            (on_output (T.text text.now)) result }
        ensures report { self.new.report ≡ self.old.report }
        ensures line { next_line self.new ≡ next_line self.old }
    {
        self.output.write_text(text, &mut self.page)
    }

    /// Writes bytes to the output.
    pub fn write_output(&mut self, bytes: &[u8]) -> Result<(), IoFault>
        ensures gives { AfterWrite W.state E.state self.old self.new (on_output bytes.now) result }
        ensures report { self.new.report ≡ self.old.report }
        ensures line { next_line self.new ≡ next_line self.old }
    {
        write_whole(&mut self.output, bytes)
    }

    /// Writes the line to the report. The line stays as it is.
    pub fn report_line(&mut self) -> Result<(), IoFault>
        ensures gives { AfterWrite W.state E.state self.old self.new
            (on_report (next_line self.old)) result }
        ensures output { self.new.output ≡ self.old.output }
        ensures line { next_line self.new ≡ next_line self.old }
    {
        write_whole(&mut self.report, &self.line)
    }

    /// Writes a text to the report. It is made in the report's own memory if that has room for it.
    #[inline(always)]
    pub fn report_text<T: Text>(&mut self, text: &T) -> Result<(), IoFault>
        ensures gives { AfterWrite W.state E.state self.old self.new
            (on_report (T.text text.now)) result }
        ensures output { self.new.output ≡ self.old.output }
        ensures line { next_line self.new ≡ next_line self.old }
    {
        self.report.write_text(text, &mut self.page)
    }

    /// Hands on all that was written to the output, and then all that was written to the report. If
    /// the output fails, the report is left as it is.
    pub fn settle(&mut self) -> Result<(), IoFault>
        ensures gives { AfterSettle W.state E.state self.old self.new result }
        ensures output { OnOk result ((W.state self.new.output).handed
            ≡ (W.state self.new.output).written) }
        ensures report { OnOk result ((E.state self.new.report).handed
            ≡ (E.state self.new.report).written) }
        ensures line { next_line self.new ≡ next_line self.old }
    {
        if self.output.settle().is_err() {
            return Err(IoFault::Write);
        }
        if self.report.settle().is_err() {
            return Err(IoFault::Write);
        }
        Ok(())
    }

    /// Puts the text of a fault into the line, writes the line to the report, and returns
    /// [`Status::FAULT`], which is 3.
    #[cold]
    pub fn report_fault(&mut self, fault: &Fault) -> Result<Status, IoFault>
        ensures gives { AfterLastWrite W.state E.state self.old self.new
            (on_report (fault_text fault.now)) 3 result }
        ensures output { self.new.output ≡ self.old.output }
        ensures line { next_line self.new ≡ fault_text fault.now }
    {
        self.clear_line();
        fault_line(&mut self.line, fault);
        self.report_line()?;
        Ok(Status::FAULT)
    }

    /// Ends a run whose session has stopped. For a fault of the wire, writes its line to the
    /// report. Any other stop is returned as an error, without a line.
    #[cold]
    pub fn end(&mut self, stop: Stop) -> Result<Status, IoFault>
        ensures { AfterStop W.state E.state stop self.old self.new result }
    {
        match stop {
            Stop::Wire(offset, fault) => self.report_fault(&Fault::Wire(offset, fault)),
            Stop::Io(fault) => Err(fault),
        }
    }
}
