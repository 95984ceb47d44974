//! Reading a head byte by byte.
ghost use Rattle.std.specs.Prelude.{◌≡◌, ℕ, ◌+◌, ◌<◌, ◌≤◌, ◌↔◌, List, [], ◌∷◌, ◌++◌, length, IsTrue};
ghost use Rattle.link_cbor.specs.Stage.{head_stage_fits};

use crate::head::{Head, HeadStep};
use crate::piecewise::Piecewise;

/// How far a scan has read its head.
#[derive(Clone, Copy, PartialEq, Eq, Debug)]
enum HeadStage {
    /// No byte has been seen.
    Start,
    /// The argument bytes seen encode `value`, and `left` more are needed.
    Argument { major: u8, left: u8, value: u64 },
    /// `f8` was seen: a simple value of at least 32 has to follow.
    Simple,
    Whole(Head),
    IllFormed,
}

/// Major type 7 with additional information 24: the next byte is a simple value.
const SIMPLE_IN_NEXT_BYTE: u8 = 0xf8;

/// The least simple value that two bytes may encode (RFC 8949 section 3.3).
const LEAST_IN_NEXT_BYTE: u8 = 32;

impl HeadStage {
    ghost use Rattle.link_cbor.specs.Head.{head_front, no_argument};
    ghost use Rattle.link_cbor.specs.Stage.{stage_step, in_argument, IsStageInHead};

    /// What a caller sees at this stage: a whole head, a bad one, or that more bytes are needed.
    fn outcome(self) -> HeadStep
        ensures { result ≡ stage_step self }
    {
        match self {
            HeadStage::Whole(head) => HeadStep::Done(head),
            HeadStage::IllFormed => HeadStep::Bad,
            _ => HeadStep::More,
        }
    }

    /// The stage after the first byte of a head.
    ///
    /// The top three bits are the major type, and the low five bits are the additional information.
    #[tactic(auto, using(crate::proofs::Fronts::first_byte), unfolding(crate::specs::Head::front_by, crate::specs::Stage::front_from, crate::specs::Stage::head_stage_fits))]
    fn begin(first: u8) -> HeadStage
        ensures { IsStageInHead 1 result (λ more. head_front (first ∷ more)) }
    {
        let major = first >> 5;
        let information = first & 0x1f;
        match information {
            0..=23 => HeadStage::Whole(Head {
                major,
                value: Some(u64::from(information)),
            }),
            24..=27 if first == SIMPLE_IN_NEXT_BYTE => HeadStage::Simple,
            24..=27 => HeadStage::Argument {
                major,
                left: 1 << (information - 24),
                value: 0,
            },
            31 => HeadStage::without_argument(major),
            _ => HeadStage::IllFormed,
        }
    }

    /// The stage in an argument: the bytes seen of it encode `value`, and `left` more are needed.
    ///
    /// If `left` is 0, the head is whole.
    #[inline(always)]
    fn in_argument(major: u8, left: u8, value: u64) -> HeadStage
        ensures { result ≡ in_argument major left value }
    {
        if left > 0 {
            return HeadStage::Argument { major, left, value };
        }
        let value = Some(value);
        HeadStage::Whole(Head { major, value })
    }

    /// The stage after a first byte with additional information 31.
    ///
    /// The head has an indefinite length or is the break. For major types 0, 1 and 6 it is
    /// ill-formed.
    #[tactic(auto, unfolding(crate::specs::Head::no_argument, crate::specs::Stage::front_from, crate::specs::Stage::head_stage_fits))]
    fn without_argument(major: u8) -> HeadStage
        ensures { IsStageInHead 1 result (λ _. no_argument major) }
    {
        if major < 2 || major == 6 {
            HeadStage::IllFormed
        } else {
            HeadStage::Whole(Head { major, value: None })
        }
    }
}

/// Reads one head, byte by byte.
///
/// It needs more bytes until the head is complete or known to be ill-formed. That takes at most
/// nine bytes.
#[derive(Clone, Copy, Debug)]
pub struct HeadScan {
    count: u8,
    stage: HeadStage,
    ghost fits: { IsTrue (head_stage_fits count stage) },
}

impl HeadScan {
    ghost use Rattle.link_cbor.specs.Head.{head_front, step_of, front_by_step};
    ghost use Rattle.link_cbor.specs.HeadScan.{HasScannedHead, head_scan_size, may_scan_head};
    ghost use Rattle.link_cbor.specs.Stage.{front_from, IsStageInHead};
    ghost use Rattle.link_cbor.specs.declared.head.HeadStep.TheVariants.{More};

    /// A scan that has seen no byte.
    #[tactic(auto, unfolding(crate::specs::Stage::front_from, crate::specs::Stage::head_stage_fits))]
    pub fn new() -> HeadScan
        ensures seen { HasScannedHead result [] }
        ensures size { head_scan_size result ≡ 0 }
        ensures may_step { IsTrue (may_scan_head result) }
    {
        HeadScan {
            count: 0,
            stage: HeadStage::Start,
        }
    }

    /// The state of the head after the bytes seen so far.
    pub fn outcome(&self) -> HeadStep
        ensures seen { (seen : List ℕ) → HasScannedHead self.now seen → result ≡ step_of seen }
        ensures front { (seen : List ℕ) → HasScannedHead self.now seen
            → head_front seen ≡ front_by_step result (length seen) }
        ensures may_step { IsTrue (may_scan_head self.now) ↔ (result ≡ More) }
    {
        self.stage.outcome()
    }

    /// The stage after one more byte. `ended` cannot occur: such a scan takes no more bytes.
    #[tactic(auto, unfolding(crate::specs::Head::argument_front, crate::specs::Head::with_argument, crate::specs::Head::big_endian, crate::specs::Stage::front_from, crate::specs::Stage::head_stage_fits))]
    fn next_stage(&self, byte: u8) -> HeadStage
        requires { IsTrue (may_scan_head self.now) }
        ensures { IsStageInHead (self.now.count + 1) result
            (λ more. front_from self.now.count self.now.stage (byte ∷ more)) }
    {
        match self.stage {
            HeadStage::Start => HeadStage::begin(byte),
            HeadStage::Argument { major, left, value } => {
                let value = value * 256 + u64::from(byte);
                HeadStage::in_argument(major, left - 1, value)
            }
            HeadStage::Simple if byte < LEAST_IN_NEXT_BYTE => HeadStage::IllFormed,
            HeadStage::Simple => HeadStage::in_argument(7, 0, u64::from(byte)),
            ended => ended,
        }
    }
}

impl Piecewise for HeadScan {
    ghost use Rattle.link_cbor.specs.HeadScan.{HasScannedHead, head_scan_size, may_scan_head, head_goes};

    ghost has_seen = { HasScannedHead };

    ghost size = { head_scan_size };

    ghost goes = { head_goes };

    ghost may_step = { may_scan_head };

    fn going(&self) -> bool
        ensures seen { (seen : List ℕ) → HasScannedHead self.now seen → result ≡ head_goes seen }
        ensures may_step { result ≡ may_scan_head self.now }
    {
        self.outcome() == HeadStep::More
    }

    fn count(&self) -> u64
        ensures size { result ≡ head_scan_size self.now }
        ensures seen { (seen : List ℕ) → HasScannedHead self.now seen → result ≡ length seen }
        ensures small { result ≤ 9 }
    {
        u64::from(self.count)
    }

    fn step(&mut self, byte: u8)
        requires may_step { IsTrue (may_scan_head self.old) }
        ensures size { head_scan_size self.new ≡ head_scan_size self.old + 1 }
        ensures seen { (seen : List ℕ) → HasScannedHead self.old seen
            → HasScannedHead self.new (seen ++ byte ∷ []) }
    {
        self.stage = self.next_stage(byte);
        self.count += 1;
    }
}
