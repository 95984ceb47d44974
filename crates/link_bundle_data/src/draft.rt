//! The values of the heads so far, and how each head changes them.
ghost use Rattle.std.specs.Prelude.{◌≡◌, ◌≤◌, IfOk, IfSome, IsTrue, length};

use crate::due::{DataStage, Due, Found, Number, Owner, Pair, Status};
use crate::row;
use crate::values::{Assertion, DataView, Integer, Report, SecurityBlock, TARGETS_KEPT};
use arrayvec::ArrayVec;
use link_bundle_heads::row as bundle_row;
use link_bundle_types::{BundleFault, EidForm, KeptEid};
use link_cbor::Head;

/// The values of the heads so far.
///
/// A value is set before it is read, so it does not matter what it was before.
#[derive(Drop)]
pub(crate) struct Draft {
    /// The endpoint ID of the data.
    pub eid: KeptEid,
    pub security: SecurityBlock,
    /// The first targets of the security block.
    pub targets: ArrayVec<u64, TARGETS_KEPT>,
    pub report: Report,
    /// The number of status assertions after the first four.
    pub others: u64,
    /// Whether the status report is about a fragment.
    pub is_fragment: bool,
}

impl Draft {
    ghost use Rattle.link_bundle_data.specs.Left.{data_from};
    ghost use Rattle.link_bundle_data.specs.DataView.{viewed_data, HasShortName};

    /// The values before the first head.
    pub fn new() -> Draft {
        Draft {
            eid: KeptEid::new(),
            security: SecurityBlock {
                targets: 0,
                targets_primary: false,
                context: Integer {
                    negative: false,
                    argument: 0,
                },
                flags: 0,
                size: 0,
            },
            targets: ArrayVec::new(),
            report: Report {
                received: Assertion::No,
                forwarded: Assertion::No,
                delivered: Assertion::No,
                deleted: Assertion::No,
                timed: false,
                untimed: false,
                reason: 0,
                time: 0,
                sequence: 0,
                fragment: None,
            },
            others: 0,
            is_fragment: false,
        }
    }

    /// What the data says, if its item `found` was read and ends before `offset`.
    pub fn view(&self, found: Found, offset: u64) -> DataView<'_>
        ensures view { viewed_data result ≡ data_from found self.now offset }
        ensures short { HasShortName (viewed_data result) }
    {
        match found {
            Found::PreviousNode => DataView::PreviousNode(self.eid.view()),
            Found::BundleAge(age) => DataView::BundleAge(age),
            Found::HopCount(limit, count) => DataView::HopCount(limit, count),
            Found::Security => {
                let block = SecurityBlock {
                    size: offset,
                    ..self.security
                };
                DataView::Security(block, self.targets.as_slice(), self.eid.view())
            }
            Found::StatusReport => DataView::StatusReport(self.report, self.eid.view()),
            Found::OtherRecord(code) => DataView::OtherRecord(code),
        }
    }
}

impl Draft {
    ghost use Rattle.link_bundle_data.specs.Turns as turns;
    ghost use Rattle.link_bundle_data.specs.Turns.{turned};
    ghost use Rattle.link_bundle_data.specs.Fits.{stage_fits};

    /// Judges a complete head of `size` bytes, and returns the stage after it.
    ///
    /// A function of `row`, in this crate or in `link_bundle_heads`, judges whether it is the head
    /// that is due. If that function returns a fault, the result is the same fault.
    pub fn head(&mut self, due: Due, size: u64, head: Head) -> Result<DataStage, BundleFault>
        ensures judged { turned result self.new ≡ turns.judged due size head self.old }
        ensures fits { IfOk result (λ stage. IsTrue (stage_fits stage self.new)) }
    {
        match due {
            Due::Number(number) => Ok(self.number(number, bundle_row::unsigned(head)?)),
            Due::Pair(pair) => self.pair(pair, head),
            Due::Scheme(owner) => {
                let scheme = bundle_row::scheme(head)?;
                Ok(DataStage::Head(owner.specific(scheme)))
            }
            Due::DtnPart(owner) => Ok(self.dtn(owner, bundle_row::dtn_part(head)?)),
            Due::IpnPart(owner) => {
                let count = bundle_row::ipn_part(head)?;
                Ok(DataStage::Head(owner.first_number(count)))
            }
            Due::Targets => self.targets(head),
            Due::ContextId => {
                self.security.context = row::integer(head)?;
                Ok(DataStage::Head(Due::Number(Number::ContextFlags)))
            }
            Due::Report => {
                self.is_fragment = row::four_or_six(head)? == 6;
                Ok(DataStage::Head(Due::Assertions))
            }
            Due::Assertions => {
                self.others = row::four_or_more(head)? - 4;
                self.report.timed = false;
                self.report.untimed = false;
                Ok(DataStage::Head(Due::Assertion(Status::Received)))
            }
            Due::Assertion(status) => {
                let has_time = row::one_or_two(head)? == 2;
                Ok(DataStage::Head(Due::Asserted(status, has_time)))
            }
            Due::Asserted(status, has_time) => {
                let asserted = row::assertion(has_time, size, head)?;
                Ok(self.asserted(status, has_time, asserted))
            }
        }
    }

    /// Judges the array of two elements that is due. The size of its head does not matter.
    fn pair(&mut self, pair: Pair, head: Head) -> Result<DataStage, BundleFault>
        ensures judged { turned result self.new ≡ turns.judged (Due.Pair pair) 0 head self.old }
        ensures fits { IfOk result (λ stage. IsTrue (stage_fits stage self.new)) }
    {
        bundle_row::pair(head)?;
        Ok(DataStage::Head(pair.first()))
    }

    /// Judges the array of the targets of a security block. The size of its head does not matter.
    fn targets(&mut self, head: Head) -> Result<DataStage, BundleFault>
        ensures judged { turned result self.new ≡ turns.judged Due.Targets 0 head self.old }
        ensures fits { IfOk result (λ stage. IsTrue (stage_fits stage self.new)) }
    {
        let count = row::array(head)?;
        self.security.targets = count;
        self.security.targets_primary = false;
        self.targets.clear();
        Ok(DataStage::Head(Due::targets(count)))
    }

    /// Takes the unsigned integer that is due.
    fn number(&mut self, number: Number, value: u64) -> DataStage
        ensures took { (result, self.new) ≡ turns.took number value self.old }
        ensures fits { IsTrue (stage_fits result self.new) }
    {
        match number {
            Number::Age => DataStage::Read(Found::BundleAge(value)),
            Number::HopLimit => DataStage::Head(Due::Number(Number::HopCount(value))),
            Number::HopCount(limit) => DataStage::Read(Found::HopCount(limit, value)),
            Number::Target(left) => self.target(left, value),
            Number::ContextFlags => {
                self.security.flags = value;
                DataStage::Head(Due::Pair(Pair::Eid(Owner::Security)))
            }
            Number::RecordType => DataStage::after_type(value),
            Number::AssertedTime(status) => self.assertion(status, Assertion::YesAt(value)),
            Number::Reason => {
                self.report.reason = value;
                DataStage::Head(Due::Pair(Pair::Eid(Owner::Report)))
            }
            Number::CreationTime => {
                self.report.time = value;
                DataStage::Head(Due::Number(Number::Sequence))
            }
            Number::Sequence => self.sequence(value),
            Number::FragmentOffset => DataStage::Head(Due::Number(Number::FragmentLength(value))),
            Number::FragmentLength(offset) => {
                self.report.fragment = Some((offset, value));
                DataStage::Read(Found::StatusReport)
            }
            Number::Allocator(owner) => {
                DataStage::Head(Due::Number(Number::Node(owner, Some(value))))
            }
            Number::Node(owner, allocator) => {
                DataStage::Head(Due::Number(Number::Service(owner, allocator, value)))
            }
            Number::Service(owner, allocator, node) => self.service(owner, allocator, node, value),
        }
    }

    /// Takes a target of a security block, after which `left` targets follow. Only the first 64
    /// are kept.
    fn target(&mut self, left: u64, target: u64) -> DataStage
        ensures took { (result, self.new) ≡ turns.took (Number.Target left) target self.old }
        ensures fits { IsTrue (stage_fits result self.new) }
    {
        self.security.targets_primary = self.security.targets_primary || target == 0;
        if !self.targets.is_full() {
            self.targets.push(target);
        }
        DataStage::Head(Due::targets(left))
    }

    /// Takes the Boolean `asserted` of a status assertion. A time follows it if `has_time`.
    fn asserted(&mut self, status: Status, has_time: bool, asserted: bool) -> DataStage
        ensures took { (result, self.new)
            ≡ turns.took_asserted status has_time asserted self.old }
        ensures fits { IsTrue (stage_fits result self.new) }
    {
        if has_time {
            return DataStage::Head(Due::Number(Number::AssertedTime(status)));
        }
        let assertion = if asserted {
            Assertion::Yes
        } else {
            Assertion::No
        };
        self.assertion(status, assertion)
    }

    /// Keeps a status assertion, and returns the stage after it.
    fn assertion(&mut self, status: Status, assertion: Assertion) -> DataStage
        ensures took { (result, self.new) ≡ turns.took_assertion status assertion self.old }
        ensures fits { IsTrue (stage_fits result self.new) }
    {
        match status {
            Status::Received => self.report.received = assertion,
            Status::Forwarded => self.report.forwarded = assertion,
            Status::Delivered => self.report.delivered = assertion,
            Status::Deleted => self.report.deleted = assertion,
            Status::Other(_) => {}
        }
        let is_timed = assertion.is_timed();
        let is_untimed = assertion.is_untimed();
        self.report.timed = self.report.timed || is_timed;
        self.report.untimed = self.report.untimed || is_untimed;
        DataStage::Head(status.next(self.others))
    }

    /// Takes the sequence number of a status report. If the report is on a fragment, the fragment's
    /// offset is due next. Otherwise the report is complete.
    fn sequence(&mut self, sequence: u64) -> DataStage
        ensures took { (result, self.new) ≡ turns.took_sequence sequence self.old }
        ensures fits { IsTrue (stage_fits result self.new) }
    {
        self.report.sequence = sequence;
        if self.is_fragment {
            return DataStage::Head(Due::Number(Number::FragmentOffset));
        }
        self.report.fragment = None;
        DataStage::Read(Found::StatusReport)
    }

    /// Takes the service number of an ipn endpoint ID.
    fn service(
        &mut self,
        owner: Owner,
        allocator: Option<u64>,
        node: u64,
        service: u64,
    ) -> DataStage
        ensures took { (result, self.new)
            ≡ turns.took (Number.Service owner allocator node) service self.old }
        ensures fits { IsTrue (stage_fits result self.new) }
    {
        match allocator {
            None => self.eid.set(EidForm::Ipn(node, service)),
            Some(allocator) => self.eid.set(EidForm::Ipn3(allocator, node, service)),
        }
        owner.after_eid()
    }

    /// Takes the specific part of a dtn endpoint ID: the length of its name, or `None` for
    /// `dtn:none`.
    fn dtn(&mut self, owner: Owner, part: Option<u64>) -> DataStage
        requires { IfSome part (λ size. size ≤ 1024) }
        ensures took { (result, self.new) ≡ turns.took_dtn owner part self.old }
        ensures fits { IsTrue (stage_fits result self.new) }
    {
        match part {
            None => {
                self.eid.set(EidForm::DtnNone);
                owner.after_eid()
            }
            Some(size) => {
                self.eid.set(EidForm::Dtn);
                owner.name_due(size)
            }
        }
    }

    /// Takes the bytes `run` of a dtn name, of which `left` bytes are left before them.
    pub fn name(&mut self, owner: Owner, left: u64, run: &[u8]) -> DataStage
        requires fits { IsTrue (stage_fits (DataStage.Name owner left) self.old) }
        requires within { length run.now ≤ left }
        ensures took { (result, self.new) ≡ turns.took_run owner left run.now self.old }
        ensures fits { IsTrue (stage_fits result self.new) }
    {
        self.eid.extend(run);
        owner.name_due(left - run.len() as u64)
    }
}
