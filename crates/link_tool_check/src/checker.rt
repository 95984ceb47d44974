//! `check`: the lines of the rules that a recorded stream breaks.

ghost use Rattle.std.specs.Prelude.{◌≡◌, ℕ, true, [], ◌∷◌, ◌++◌, List, Option, map};
ghost use Rattle.link_wire.specs.MessageBuffer.{IfSegmentItemsHaveTotals};
ghost use Rattle.link_session_rules.specs.Flags.{contact_flags};
ghost use Rattle.link_session_rules.specs.Heads.{HeadWithOrder, viewed_head};
ghost use Rattle.link_session_rules.specs.MessageRules.{broken_rules};
ghost use Rattle.link_session_rules.specs.Remembered.{IsMessageHistoryAt};
ghost use Rattle.link_report_broken_rules.specs.declared.rule.BrokenRule.TheVariants.{Message};
ghost use Rattle.link_rules_shared.specs.declared.doubt.Doubt.TheVariants.{Nothing};
ghost use Rattle.link_run.specs.Run.{devices, looks, NoneFailed};
ghost use Rattle.link_run.specs.NewRun.{IsNewRun};
ghost use Rattle.link_run.specs.WholeRun.{AfterRun};
ghost use Rattle.link_run_over_transfers.specs.Telling.{viewed_head as told_head, inner_head};
ghost use Rattle.link_tool_check.specs.Checker.{IsCheckedTransferAtLatest, IsCheckerAt, closed_due};
ghost use Rattle.link_tool_check.specs.Checking.{BegunTransfer, check_telling, check_tool, head_rules, judged, optional};
ghost use Rattle.link_tool_check.specs.Lines.{at_offset};
ghost use Rattle.link_tool_check.specs.Writing.{WritesRules};
ghost use Rattle.link_tool_option_types.specs.declared.check.CheckOptions.{CheckOptions};

use crate::lines::write_rules;
use crate::transfer::CheckedTransfer;
use link_rules_shared::Doubt;
use link_run::{Run, RunEnd, Writers};
use link_run_over_transfers::{Consumer, EventView, HeadView, Manner, WalkRun, walk_run};
use link_session_rules::{JudgedHeadView, MessageHistory, contact_flags};
use link_tool_option_types::CheckOptions;
use link_wire::{Contact, InDevice, IoFault, OutDevice};

/// What is known about the messages and the transfers so far.
#[derive(Drop)]
pub struct Checker {
    history: MessageHistory,
    latest: CheckedTransfer,
    /// Whether no rule that counts was broken.
    good: bool,
}

impl Checker {
    /// Makes a checker that has had no event. The contract holds for any options.
    pub fn new() -> Checker
        ensures { (options : CheckOptions) → IsCheckerAt options result [] }
    {
        Checker {
            history: MessageHistory::new(),
            latest: CheckedTransfer::new(),
            good: true,
        }
    }
}

impl Consumer for Checker {
    type Options = CheckOptions;

    ghost telling = { check_telling };

    ghost knows = { IsCheckerAt };

    #[inline(always)]
    fn manner(_options: &CheckOptions) -> Manner {
        Manner {
            goes_on: true,
            all_heads: true,
        }
    }

    #[inline(always)]
    fn event<W: OutDevice, E: OutDevice>(
        &mut self,
        options: &CheckOptions,
        event: EventView<'_>,
        writers: &mut Writers<W, E>,
    ) -> Result<(), IoFault> {
        match event {
            EventView::Contact(contact) => {
                write_contact(options.must, contact, writers, &mut self.good)
            }
            EventView::Head(head) => {
                let written = judge(options, &head, &mut self.history, writers, &mut self.good);
                if head.begins() {
                    self.latest.begin(&head);
                }
                if let Err(fault) = written {
                    return Err(fault);
                }
                close(
                    options,
                    head.closes(),
                    self.history.node(),
                    &self.latest,
                    writers,
                    &mut self.good,
                )
            }
            // The data is taken before the head is judged. This does not show, since taking data
            // writes nothing.
            EventView::Inner { head, bytes } => {
                if let Err(fault) = self.latest.take(&options.own, bytes, writers) {
                    return Err(fault);
                }
                let length = bytes.len() as u64;
                let history = &mut self.history;
                judge_inner(options, &head, length, history, writers, &mut self.good)
            }
            EventView::Data { bytes, whole } => {
                if let Err(fault) = self.latest.take(&options.own, bytes, writers) {
                    return Err(fault);
                }
                let sender = self.history.node();
                close(
                    options,
                    whole,
                    sender,
                    &self.latest,
                    writers,
                    &mut self.good,
                )
            }
            EventView::LeftOpen => {
                self.latest
                    .write_open(options.must, writers, &mut self.good)
            }
        }
    }

    #[inline(always)]
    fn is_good(&self, _options: &CheckOptions) -> bool {
        self.good
    }
}

/// If the contact header breaks the rule of contact headers, writes the line of this rule.
///
/// `must` and `good` are as in [`write_rules`].
fn write_contact<W: OutDevice, E: OutDevice>(
    must: bool,
    contact: &Contact,
    writers: &mut Writers<W, E>,
    good: &mut bool,
) -> Result<(), IoFault>
    ensures { WritesRules W.state E.state must writers.old writers.new good.old good.new result
        (at_offset 0 Nothing (map (λ rule. Message rule)
        (optional (contact_flags contact.now)))) }
{
    match contact_flags(contact) {
        Some(rule) => write_rules(must, 0, Doubt::Nothing, (), &[rule], writers, good),
        None => Ok(()),
    }
}

/// Judges a head by the heads before it, which the history has kept, and writes a line for each
/// rule that it breaks. Then adds the head to the history.
#[inline(always)]
fn judge<W: OutDevice, E: OutDevice>(
    options: &CheckOptions,
    head: &HeadView<'_>,
    history: &mut MessageHistory,
    writers: &mut Writers<W, E>,
    good: &mut bool,
) -> Result<(), IoFault>
    requires { IfSegmentItemsHaveTotals head.now.message.now }
    ensures gives { (before : List HeadWithOrder) → IsMessageHistoryAt history.old before
        → WritesRules W.state E.state options.now.must writers.old writers.new good.old good.new
        result (head_rules options.now before (told_head head.now)) }
    ensures history { (before : List HeadWithOrder) → IsMessageHistoryAt history.old before
        → IsMessageHistoryAt history.new (before ++ judged (told_head head.now) ∷ []) }
{
    let judged = JudgedHeadView {
        message: head.message,
        fault: head.fault,
        turn: head.turn,
    };
    let written = write_head(options, head.offset, &judged, history, writers, good);
    history.take(&judged);
    written
}

/// Does [`judge`] for the head of an inner segment with `length` bytes of data.
///
/// Most inner segments are known to break no rule. They are only added to the history.
#[inline(always)]
fn judge_inner<W: OutDevice, E: OutDevice>(
    options: &CheckOptions,
    head: &HeadView<'_>,
    length: u64,
    history: &mut MessageHistory,
    writers: &mut Writers<W, E>,
    good: &mut bool,
) -> Result<(), IoFault>
    requires { IfSegmentItemsHaveTotals head.now.message.now }
    ensures gives { (id : ℕ) (before : List HeadWithOrder)
        → told_head head.now ≡ inner_head head.now.offset id length
        → IsMessageHistoryAt history.old before
        → WritesRules W.state E.state options.now.must writers.old writers.new good.old good.new
        result (head_rules options.now before (told_head head.now)) }
    ensures history { (id : ℕ) (before : List HeadWithOrder)
        → told_head head.now ≡ inner_head head.now.offset id length
        → IsMessageHistoryAt history.old before
        → IsMessageHistoryAt history.new (before ++ judged (told_head head.now) ∷ []) }
{
    if history.take_inner(&options.peer, length) {
        return Ok(());
    }
    judge_apart(options, *head, history, writers, good)
}

/// Does [`judge`] for the head of an inner segment that may break a rule.
///
/// If no limit of the peer is known, few inner segments need this call. So it is not inlined.
#[cold]
#[inline(never)]
fn judge_apart<W: OutDevice, E: OutDevice>(
    options: &CheckOptions,
    head: HeadView<'_>,
    history: &mut MessageHistory,
    writers: &mut Writers<W, E>,
    good: &mut bool,
) -> Result<(), IoFault>
    requires { IfSegmentItemsHaveTotals head.message.now }
    ensures gives { (before : List HeadWithOrder) → IsMessageHistoryAt history.old before
        → WritesRules W.state E.state options.now.must writers.old writers.new good.old good.new
        result (head_rules options.now before (told_head head.entry)) }
    ensures history { (before : List HeadWithOrder) → IsMessageHistoryAt history.old before
        → IsMessageHistoryAt history.new (before ++ judged (told_head head.entry) ∷ []) }
{
    judge(options, &head, history, writers, good)
}

/// Writes the lines of the rules that a head breaks after the heads of the history. Most heads
/// break none.
#[inline(always)]
fn write_head<W: OutDevice, E: OutDevice>(
    options: &CheckOptions,
    offset: u64,
    head: &JudgedHeadView<'_>,
    history: &MessageHistory,
    writers: &mut Writers<W, E>,
    good: &mut bool,
) -> Result<(), IoFault>
    requires { IfSegmentItemsHaveTotals head.now.message.now }
    ensures { (before : List HeadWithOrder) → IsMessageHistoryAt history.now before
        → WritesRules W.state E.state options.now.must writers.old writers.new good.old good.new
        result (at_offset offset Nothing (map (λ rule. Message rule)
        (broken_rules options.now.peer before (viewed_head head.now)))) }
{
    if history.keeps_rules(&options.peer, head) {
        return Ok(());
    }
    write_broken(options, offset, head, history, writers, good)
}

/// Does [`write_head`] for a head that may break a rule.
#[inline(never)]
fn write_broken<W: OutDevice, E: OutDevice>(
    options: &CheckOptions,
    offset: u64,
    head: &JudgedHeadView<'_>,
    history: &MessageHistory,
    writers: &mut Writers<W, E>,
    good: &mut bool,
) -> Result<(), IoFault>
    requires { IfSegmentItemsHaveTotals head.now.message.now }
    ensures { (before : List HeadWithOrder) → IsMessageHistoryAt history.now before
        → WritesRules W.state E.state options.now.must writers.old writers.new good.old good.new
        result (at_offset offset Nothing (map (λ rule. Message rule)
        (broken_rules options.now.peer before (viewed_head head.now)))) }
{
    let rules = history.rules(&options.peer, head);
    let rules = rules.as_slice();
    write_rules(
        options.must,
        offset,
        Doubt::Nothing,
        (),
        rules,
        writers,
        good,
    )
}

/// If the latest transfer is closed now, writes the lines of the rules that it breaks.
///
/// `due` is whether it is closed now. `sender` is the node ID of the sender, or empty.
#[inline(always)]
fn close<W: OutDevice, E: OutDevice>(
    options: &CheckOptions,
    due: bool,
    sender: &[u8],
    latest: &CheckedTransfer,
    writers: &mut Writers<W, E>,
    good: &mut bool,
) -> Result<(), IoFault>
    ensures { (begun : Option BegunTransfer)
        → (due ≡ true → IsCheckedTransferAtLatest options.now.own.items latest.now begun)
        → WritesRules W.state E.state options.now.must writers.old writers.new good.old good.new
        result (closed_due due options.now.own.items sender.now begun) }
{
    if due {
        latest.write_closed(options.must, options.own.as_slice(), sender, writers, good)
    } else {
        Ok(())
    }
}

/// A run of `check`, step by step.
pub type CheckRun<R, W, E> = WalkRun<R, W, E, Checker>;

/// Makes a run of `check` that has read and written nothing.
pub fn check_run<R: InDevice, W: OutDevice, E: OutDevice>(
    options: CheckOptions,
    reader: R,
    output: W,
    report: E,
) -> CheckRun<R, W, E>
    requires sound { NoneFailed (looks R.state W.state E.state) (devices reader output report) }
    ensures { IsNewRun ⟦<CheckRun<R, W, E> as Run<R, W, E>>⟧ (check_tool options)
        (devices reader output report) result }
{
    walk_run(options, Checker::new(), reader, output, report)
}

/// Judges by which rules a recorded stream was sent, to the end of the run.
///
/// The output has a line for each rule that a message, a transfer or its bundle breaks, in the
/// order in which this is known. [`CheckOptions`] says which rules have lines. A message that is
/// not in order breaks a rule, and the run goes on. A fault of the wire stops the stream. Then the
/// report has its line, and the status is 3. Otherwise the report is empty, and the status is 1 if
/// the output has a line, and else 0.
///
/// The answer is an error if a device failed, or the input has more than 2^63 - 1 bytes.
#[inline(never)]
pub fn check<R: InDevice, W: OutDevice, E: OutDevice>(
    options: CheckOptions,
    reader: R,
    output: W,
    report: E,
) -> RunEnd<R, W, E>
    requires sound { NoneFailed (looks R.state W.state E.state) (devices reader output report) }
    ensures { AfterRun (looks R.state W.state E.state) (check_tool options)
        (devices reader output report) result }
{
    check_run(options, reader, output, report).run()
}
