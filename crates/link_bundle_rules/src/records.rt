//! Rules of administrative records and status reports (RFC 9171 section 6.1).

ghost use Rattle.std.specs.Prelude.{◌≡◌};
ghost use Rattle.link_bundle_rules.specs.Records.{report_in};

use crate::block::{BlockFacts, DataFacts, PAYLOAD, ReportFacts};
use crate::history::BundleHistory;
use crate::rule::BundleRule;

/// The reason code that is reserved (section 9.5).
const RESERVED_REASON: u64 = 255;

/// What a status report says. `None` for data of another kind.
fn report_in(found: DataFacts) -> Option<ReportFacts>
    ensures { result ≡ report_in found }
{
    match found {
        DataFacts::StatusReport(report) => Some(report),
        _ => None,
    }
}

impl BundleHistory {
    ghost use Rattle.std.specs.Prelude.{◌≡◌, ℕ, Option};
    ghost use Rattle.link_bundle_rules.specs.History.{bundle_of};
    ghost use Rattle.link_bundle_rules.specs.Records.{record_of, administrative_record, record_type, report_of, report_times, report_empty, report_reason, report_source};

    /// The payload block, unless its data may be ciphertext. In a fragment, or without an
    /// administrative record, its data is `Nothing`.
    fn record_of(&self) -> Option<BlockFacts>
        ensures { (long_head : Option ℕ) (payload_length : ℕ)
            → result ≡ record_of (bundle_of self.now long_head payload_length) }
    {
        self.first_readable(PAYLOAD)
    }

    /// The rule `record`, if the administrative record breaks it.
    #[tactic(auto, unfolding(crate::specs::Records::administrative_record))]
    pub(crate) fn administrative_record(&self) -> Option<BundleRule>
        ensures { (long_head : Option ℕ) (payload_length : ℕ)
            → result ≡ administrative_record (bundle_of self.now long_head payload_length) }
    {
        match self.record_of()?.data {
            DataFacts::Malformed(byte) => Some(BundleRule::Record { byte }),
            _ => None,
        }
    }

    /// The rule `record-type`, if the administrative record breaks it.
    #[tactic(auto, unfolding(crate::specs::Records::record_type))]
    pub(crate) fn record_type(&self) -> Option<BundleRule>
        ensures { (long_head : Option ℕ) (payload_length : ℕ)
            → result ≡ record_type (bundle_of self.now long_head payload_length) }
    {
        match self.record_of()?.data {
            // Type 0 is reserved, and only version 6 of the protocol has type 2.
            DataFacts::OtherRecord(record_type @ (0 | 2)) => {
                Some(BundleRule::RecordType { record_type })
            }
            _ => None,
        }
    }

    /// What a status report says, unless it may be ciphertext.
    #[tactic(auto, unfolding(crate::specs::Records::report_of))]
    fn report_of(&self) -> Option<ReportFacts>
        ensures { (long_head : Option ℕ) (payload_length : ℕ)
            → result ≡ report_of (bundle_of self.now long_head payload_length) }
    {
        report_in(self.record_of()?.data)
    }

    /// The rule `report-times`, if the status report breaks it.
    #[tactic(auto, unfolding(crate::specs::Records::report_times))]
    pub(crate) fn report_times(&self) -> Option<BundleRule>
        ensures { (long_head : Option ℕ) (payload_length : ℕ)
            → result ≡ report_times (bundle_of self.now long_head payload_length) }
    {
        let report = self.report_of()?;
        (report.timed && report.untimed).then_some(BundleRule::ReportTimes)
    }

    /// The rule `report-empty`, if the status report breaks it.
    #[tactic(auto, unfolding(crate::specs::Records::report_empty))]
    pub(crate) fn report_empty(&self) -> Option<BundleRule>
        ensures { (long_head : Option ℕ) (payload_length : ℕ)
            → result ≡ report_empty (bundle_of self.now long_head payload_length) }
    {
        let report = self.report_of()?;
        (!report.timed && !report.untimed).then_some(BundleRule::ReportEmpty)
    }

    /// The rule `report-reason`, if the status report breaks it.
    #[tactic(auto, unfolding(crate::specs::Records::report_reason))]
    pub(crate) fn report_reason(&self) -> Option<BundleRule>
        ensures { (long_head : Option ℕ) (payload_length : ℕ)
            → result ≡ report_reason (bundle_of self.now long_head payload_length) }
    {
        let reason = self.report_of()?.reason;
        (reason == RESERVED_REASON).then_some(BundleRule::ReportReason { reason })
    }

    /// The rule `report-source`, if the status report breaks it.
    #[tactic(auto, unfolding(crate::specs::Records::report_source))]
    pub(crate) fn report_source(&self) -> Option<BundleRule>
        ensures { (long_head : Option ℕ) (payload_length : ℕ)
            → result ≡ report_source (bundle_of self.now long_head payload_length) }
    {
        let report = self.report_of()?;
        report.has_no_source.then_some(BundleRule::ReportSource)
    }
}
