//! The pace of a test device: the bytes that a call moves, and the calls that fail.

ghost use Rattle.std.specs.Prelude.{◌<◌};

use link_wire::DeviceFault;

/// When a device fails.
///
/// It fails at each later call too.
#[derive(Clone, Copy)]
pub enum Failing {
    Never,
    /// At this call, counted from 1.
    AtCall(usize),
    /// At the first call after it has moved this many bytes. It moves no more bytes than these.
    Past(usize),
}

/// The pace of a device, and counts of its calls and bytes.
#[derive(Drop)]
pub struct Pace {
    per_call: usize,
    failing: Failing,
    calls: usize,
    moved: usize,
    failed: bool,
    ghost moves: { 0 < per_call },
}

impl Pace {
    ghost use Rattle.std.specs.Prelude.{◌≡◌, ◌+◌, ◌-◌, ◌^◌, ◌<◌, ◌≤◌, true, false, IsOk, IfOk, MatchResult};

    /// The pace of a device that moves at most `per_call` bytes a call.
    pub fn new(per_call: usize, failing: Failing) -> Pace
        requires { 0 < per_call }
        ensures piece { result.per_call ≡ per_call }
        ensures failing { result.failing ≡ failing }
        ensures counted { (result.calls ≡ 0) × (result.moved ≡ 0) }
        ensures failed { result.failed ≡ false }
    {
        Pace {
            per_call,
            failing,
            calls: 0,
            moved: 0,
            failed: false,
        }
    }

    /// Counts a call, and returns how many of at most `most` bytes it moves.
    ///
    /// It moves at least one byte if there is one. An `Err` is a failure of the device.
    pub fn turn(&mut self, most: usize) -> Result<usize, DeviceFault>
        ensures bound { IfOk result (λ n. n ≤ most) }
        ensures piece { IfOk result (λ n. n ≤ self.old.per_call) }
        ensures some { IfOk result (λ n. 0 < most → 0 < n) }
        ensures failed { MatchResult result
            (λ _. self.new.failed ≡ self.old.failed)
            (λ _. self.new.failed ≡ true) }
        ensures never { self.old.failing ≡ Failing.Never → IsOk result }
        ensures counted { self.old.calls + 1 < 2 ^ 64 → self.new.calls ≡ self.old.calls + 1 }
        ensures moved { IfOk result (λ n. self.old.moved + n < 2 ^ 64
            → self.new.moved ≡ self.old.moved + n) }
        ensures same { (self.new.per_call ≡ self.old.per_call)
            × (self.new.failing ≡ self.old.failing) }
    {
        self.calls = self.calls.saturating_add(1);
        let count = most.min(self.per_call);
        let room = self.room();
        if room == 0 {
            self.failed = true;
            return Err(DeviceFault);
        }
        let count = count.min(room);
        self.moved = self.moved.saturating_add(count);
        Ok(count)
    }

    /// The greatest number of bytes that the current call may move; 0 if it fails.
    fn room(&self) -> usize
        ensures { self.now.failing ≡ Failing.Never → result ≡ 2 ^ 64 - 1 }
    {
        match self.failing {
            Failing::Never => usize::MAX,
            Failing::AtCall(call) if self.calls < call => usize::MAX,
            Failing::AtCall(_) => 0,
            Failing::Past(count) => count.saturating_sub(self.moved),
        }
    }

    /// Makes the device fail for a reason of its own.
    pub fn fail(&mut self)
        ensures failed { self.new.failed ≡ true }
        ensures same { (self.new.calls ≡ self.old.calls) × (self.new.moved ≡ self.old.moved) }
    {
        self.failed = true;
    }

    /// The number of bytes moved.
    pub fn moved(&self) -> usize
        ensures { result ≡ self.now.moved }
    {
        self.moved
    }

    /// The number of calls.
    pub fn calls(&self) -> usize
        ensures { result ≡ self.now.calls }
    {
        self.calls
    }

    pub fn failed(&self) -> bool
        ensures { result ≡ self.now.failed }
    {
        self.failed
    }
}
