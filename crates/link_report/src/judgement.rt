//! The judgement on a transfer's data, and its text in the line of the transfer.

ghost use Rattle.std.specs.Prelude.{IfOk, ◌≡◌, ◌+◌, ◌≤◌, ◌++◌, length, codes};
ghost use Rattle.link_bundle_types.specs.BundleView.{viewed_info, viewed_verdict};
ghost use Rattle.link_bundle_types.specs.ShortNames.{HasShortNames};
ghost use Rattle.link_report.specs.BundleFault.{code_text};
ghost use Rattle.link_report.specs.Text.{number_text};
ghost use Rattle.link_report.specs.Judgement.{judged_transfer, outcome_text, good_text, judgement_text, viewed_judgement, HasOnlyShortNames};
ghost use Rattle.link_report.specs.Written.{PutsText};

use crate::bundle_fault::code_of;
use crate::identity::{IDENTITY_MAX, write_identity};
use crate::page::{write_bytes, write_number, write_text};
use link_bundle_types::{BundleFault, BundleInfo, BundleView};
use link_transfer::Announced;

/// The greatest length of a judgement's text in bytes, without the text of a bundle.
pub const OUTCOME_MAX: usize = 45;

/// The greatest length of a judgement's text in bytes: that, a space, and the text of a bundle.
pub(crate) const JUDGEMENT_MAX: usize = OUTCOME_MAX + 1 + IDENTITY_MAX;

/// The judgement on the data of a transfer.
#[derive(Debug, PartialEq, Eq, Drop)]
pub enum Judgement {
    /// Another transfer began before the last segment of this one (RFC 9174 section 5.2.4).
    Abandoned,
    /// More than one Transfer Length item, or one whose value does not have 8 bytes.
    ///
    /// RFC 9174 section 5.2.5.1 defines the item.
    BadLengthItem,
    /// The length that the Transfer Length item announces, which is not that of the data.
    LengthDiffers(u64),
    /// The data are no bundle: the fault, and its offset in the data.
    Bad(BundleFault, u64),
    /// The data are this bundle.
    Good(BundleInfo),
}

/// A [`Judgement`] by reference.
#[derive(Clone, Copy, Debug, PartialEq, Eq)]
pub enum JudgementView<'a> {
    /// Another transfer began before the last segment of this one.
    Abandoned,
    /// More than one Transfer Length item, or one whose value does not have 8 bytes.
    BadLengthItem,
    /// The length that the Transfer Length item announces, which is not that of the data.
    LengthDiffers(u64),
    /// The data are no bundle: the fault, and its offset in the data.
    Bad(BundleFault, u64),
    /// The data are this bundle.
    Good(BundleView<'a>),
}

impl Judgement {
    /// The same judgement by reference.
    ///
    /// By the clause `short`, each dtn name in a judgement has at most 1,024 bytes, so the text of
    /// the judgement fits in a line.
    pub fn view(&self) -> JudgementView<'_>
        ensures view { viewed_judgement result ≡ self.now }
        ensures short { HasOnlyShortNames self.now }
    {
        match self {
            Judgement::Abandoned => JudgementView::Abandoned,
            Judgement::BadLengthItem => JudgementView::BadLengthItem,
            Judgement::LengthDiffers(announced) => JudgementView::LengthDiffers(*announced),
            Judgement::Bad(fault, offset) => JudgementView::Bad(*fault, *offset),
            Judgement::Good(info) => JudgementView::Good(info.view()),
        }
    }
}

/// Judges a transfer and its data.
///
/// `abandoned` is whether another transfer began before the end of this one. `announced` is the
/// announcement of its extension items, and `length` the number of its data bytes. `verdict` is the
/// verdict on these bytes. `abandoned` is considered first, then the announced length, and the
/// verdict last.
pub fn judge(
    abandoned: bool,
    announced: Announced,
    length: u64,
    verdict: Result<BundleInfo, (BundleFault, u64)>,
) -> Judgement
    ensures { result ≡ judged_transfer abandoned announced length verdict }
{
    match (abandoned, announced, verdict) {
        (true, _, _) => Judgement::Abandoned,
        (_, Announced::Malformed, _) => Judgement::BadLengthItem,
        (_, Announced::Total(total), _) if total != length => Judgement::LengthDiffers(total),
        (_, _, Ok(info)) => Judgement::Good(info),
        (_, _, Err((fault, offset))) => Judgement::Bad(fault, offset),
    }
}

/// Judges a transfer as [`judge`] does, with the bundle by reference.
///
/// By the clause `short`, if each dtn name in the verdict has at most 1,024 bytes, then so does
/// each dtn name in the judgement.
#[inline(always)]
pub fn judge_view<'a>(
    abandoned: bool,
    announced: Announced,
    length: u64,
    verdict: Result<BundleView<'a>, (BundleFault, u64)>,
) -> JudgementView<'a>
    ensures judged { viewed_judgement result
        ≡ judged_transfer abandoned announced length (viewed_verdict verdict.entry) }
    ensures short { IfOk verdict.entry (λ view. HasShortNames (viewed_info view))
        → HasOnlyShortNames (viewed_judgement result) }
{
    if abandoned {
        return JudgementView::Abandoned;
    }
    match announced {
        Announced::Malformed => return JudgementView::BadLengthItem,
        Announced::Total(total) if total != length => return JudgementView::LengthDiffers(total),
        _ => {}
    }
    match verdict {
        Ok(info) => JudgementView::Good(info),
        Err((fault, offset)) => JudgementView::Bad(fault, offset),
    }
}

/// Writes the fault of data that are no bundle, and returns the index after it.
///
/// It takes at most 13 bytes, and a number of at most 20 digits.
#[cold]
#[inline(never)]
fn write_bad(page: &mut [u8], at: usize, fault: BundleFault, offset: u64) -> usize
    requires { at + OUTCOME_MAX ≤ length page.old }
    ensures { PutsText page.old page.new at result OUTCOME_MAX
        (codes "bad=" ++ code_text fault ++ number_text (codes " byte=") offset) }
{
    let at = write_bytes(page, at, *b"bad=");
    let at = write_text(page, at, code_of(fault));
    write_number(page, at, *b" byte=", offset)
}

/// Writes a judgement without the identity of a good bundle, and returns the index after it.
#[tactic(auto, unfolding(crate::specs::Judgement::outcome_text))]
#[inline(always)]
pub fn write_outcome(page: &mut [u8], at: usize, judgement: &JudgementView<'_>) -> usize
    requires { at + OUTCOME_MAX ≤ length page.old }
    ensures { PutsText page.old page.new at result OUTCOME_MAX
        (outcome_text (viewed_judgement judgement.now)) }
{
    match judgement {
        JudgementView::Abandoned => write_bytes(page, at, *b"abandoned"),
        JudgementView::BadLengthItem => write_bytes(page, at, *b"bad-length-item"),
        JudgementView::LengthDiffers(announced) => {
            write_number(page, at, *b"length-differs announced=", *announced)
        }
        JudgementView::Bad(fault, offset) => write_bad(page, at, *fault, *offset),
        JudgementView::Good(_) => write_bytes(page, at, *b"good"),
    }
}

/// Writes the identity of a good bundle, and nothing for another judgement. Returns the index after
/// the text.
#[tactic(auto, unfolding(crate::specs::Judgement::good_text))]
#[inline(always)]
fn write_good(page: &mut [u8], at: usize, judgement: &JudgementView<'_>) -> usize
    requires short { HasOnlyShortNames (viewed_judgement judgement.now) }
    requires room { at + 1 + IDENTITY_MAX ≤ length page.old }
    ensures { PutsText page.old page.new at result (1 + IDENTITY_MAX)
        (good_text (viewed_judgement judgement.now)) }
{
    match judgement {
        JudgementView::Good(info) => {
            let at = write_bytes(page, at, *b" ");
            write_identity(page, at, info)
        }
        JudgementView::Abandoned
        | JudgementView::BadLengthItem
        | JudgementView::LengthDiffers(_)
        | JudgementView::Bad(..) => at,
    }
}

/// Writes a judgement as it ends a transfer's line, and returns the index after it.
#[tactic(auto, unfolding(crate::specs::Judgement::judgement_text))]
#[inline(always)]
pub(crate) fn write_judgement(page: &mut [u8], at: usize, judgement: &JudgementView<'_>) -> usize
    requires short { HasOnlyShortNames (viewed_judgement judgement.now) }
    requires room { at + JUDGEMENT_MAX ≤ length page.old }
    ensures { PutsText page.old page.new at result JUDGEMENT_MAX
        (judgement_text (viewed_judgement judgement.now)) }
{
    let at = write_outcome(page, at, judgement);
    write_good(page, at, judgement)
}
