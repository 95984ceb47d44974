//! The stages of a walk over the transfers of a recorded stream.

ghost use Rattle.std.specs.Prelude.{◌≡◌, ◌+◌, ◌^◌, ◌&&◌, ◌==◌, ◌<◌, ◌≤◌, true, false, [], is_some, IsTrue, List, length, ℕ, Some};
ghost use Rattle.link_wire.specs.Inner.{inner_segment};
ghost use Rattle.link_wire.specs.MessageBuffer.{IfSegmentItemsHaveTotals, message_of};
ghost use Rattle.link_wire.specs.Session.{source_of, may_open, may_read, is_opened, left_of, data_in};
ghost use Rattle.link_transfer.specs.Event.{event_of};
ghost use Rattle.link_transfer.specs.Joiner.{IsJoinerAt};
ghost use Rattle.link_transfer.specs.Order.{effect_of, refusal, open_of, with_taken};
ghost use Rattle.link_run.specs.Reading.{feed_of, ReadsNothing};
ghost use Rattle.link_run.specs.Made.{tool_of};
ghost use Rattle.link_run.specs.Run.{no_texts, devices, looks, NoneFailed};
ghost use Rattle.link_run.specs.NewRun.{IsNewRun};
ghost use Rattle.link_wire.specs.declared.message.Message.{Message};
ghost use Rattle.link_run_over_transfers.specs.Walk.{WalkEvent, told_of, data_size, has_open, head_at};
ghost use Rattle.link_run_over_transfers.specs.Telling.{HeadComes, Tells, inner_events, inner_head};
ghost use Rattle.link_run_over_transfers.specs.WalkRun.{Steps, Strides, TakesMessages, at, EndsAtRefusedHead, TellsHead, TellsEnd, may_go_on, may_follow, stage_by};

use crate::consumer::{Consumer, EventView};
use crate::head::{HeadView, is_last};
use link_report::Fault;
use link_run::{Input, Next, PIECE, Progress, Run, Stages, Status, ToolRun, Writers};
use link_transfer::{Event, Joiner, OrderFault, Turn};
use link_wire::{Fields, InDevice, IoFault, MessageBuffer, OutDevice, Session, Source};

/// What the next step of a walk over transfers reads.
#[derive(Clone, Copy, Debug, PartialEq, Eq)]
enum Stage {
    /// The contact header.
    Contact,
    /// The head of a message.
    Message,
    /// Data of a segment. `last` is whether the segment is the last of its transfer.
    Data { last: bool },
    /// Data of a stray segment, which is passed over.
    Stray,
}

/// What is known of the transfers so far.
#[derive(Drop)]
struct Walker<C> {
    /// The message whose head was read last.
    message: MessageBuffer,
    /// Judges the order of the messages.
    joiner: Joiner,
    consumer: C,
}

/// A walk over the transfers of a stream: its stage, and what it keeps between two steps.
#[derive(Drop)]
pub struct Walk<C: Consumer> {
    options: C::Options,
    stage: Stage,
    walker: Walker<C>,
}

/// A run of a tool over transfers, step by step.
pub type WalkRun<R, W, E, C> = ToolRun<Session<R>, W, E, Walk<C>>;

impl<R: InDevice, W: OutDevice, E: OutDevice, C: Consumer> Stages<Session<R>, W, E> for Walk<C> {
    ghost use Rattle.std.specs.Prelude.{true};
    ghost use Rattle.link_run_over_transfers.specs.Walk.{told_of};
    ghost use Rattle.link_run_over_transfers.specs.WalkRun.{may_go_on, by_stage, IsWalkAtStage};

    ghost made = { λ tool. told_of (C.telling tool.options) };

    ghost begun = { λ tool. true };

    ghost fits = { λ tool. may_go_on tool.stage };

    ghost knows = { λ tool. IsWalkAtStage R.state (C.telling tool.options) (C.knows tool.options)
        tool.stage tool.walker.joiner tool.walker.consumer };

    // 6 bytes of a contact header, 66,585 of a head, 4,096 of data
    ghost most = { λ tool. by_stage 6 66585 4096 tool.stage };

    fn stage(
        &mut self,
        input: &mut Input<Session<R>, W, E>,
        writers: &mut Writers<W, E>,
    ) -> Result<Progress, IoFault> {
        let walker = &mut self.walker;
        let next = walker.advance(self.stage, PIECE, &self.options, input, writers);
        next.keep(&mut self.stage)
    }

    #[inline(always)]
    fn stride(
        &mut self,
        input: &mut Input<Session<R>, W, E>,
        writers: &mut Writers<W, E>,
    ) -> Result<Progress, IoFault> {
        let walker = &mut self.walker;
        if let Stage::Message = self.stage {
            let next = walker.stride_message(&self.options, input, writers);
            return next.keep(&mut self.stage);
        }
        let next = walker.advance(self.stage, usize::MAX, &self.options, input, writers);
        next.keep(&mut self.stage)
    }
}

impl<C: Consumer> Walker<C> {
    /// Takes the head of a message, and more if it is at hand.
    ///
    /// After the head of a segment, takes the segment's data at hand. If this is all of its data,
    /// takes the inner segments after it too. After a message without data, passes over the quiet
    /// messages, unless the tool is told of all heads. After the head of a stray segment with data,
    /// takes no more.
    #[inline(always)]
    fn stride_message<R: InDevice, W: OutDevice, E: OutDevice>(
        &mut self,
        options: &C::Options,
        input: &mut Input<Session<R>, W, E>,
        writers: &mut Writers<W, E>,
    ) -> Next<Stage>
        requires { IsTrue (may_read (feed_of input.old)) }
        ensures fits { IsTrue (may_follow result (feed_of input.new)) }
        ensures gives { Strides (looks R.state W.state E.state) (C.telling options.now)
            (C.knows options.now) Stage.Message
            (at input.old writers.old self.old) (at input.new writers.new self.new) result }
    {
        let next = self.take_message(options, input, writers);
        let last = match next {
            Next::Stage(Stage::Data { last }) => last,
            Next::Stage(Stage::Message) if !C::manner(options).all_heads => {
                input.pass_quiet();
                return next;
            }
            _ => return next,
        };
        let ready = input.loaded().len();
        if ready == 0 {
            return next;
        }
        let taken = self.take_loaded(last, ready, options, input, writers);
        if let Next::Stage(Stage::Message) = taken {
            return self.take_inner(options, input, writers);
        }
        taken
    }

    /// Takes the step of this stage, and returns what comes next. The step takes at most `piece`
    /// bytes of data.
    #[inline(always)]
    fn advance<R: InDevice, W: OutDevice, E: OutDevice>(
        &mut self,
        stage: Stage,
        piece: usize,
        options: &C::Options,
        input: &mut Input<Session<R>, W, E>,
        writers: &mut Writers<W, E>,
    ) -> Next<Stage>
        requires fits { IsTrue (may_go_on stage (feed_of input.old)) }
        requires piece { 0 < piece }
        ensures fits { IsTrue (may_follow result (feed_of input.new)) }
        ensures gives { Steps (looks R.state W.state E.state) (C.telling options.now)
            (C.knows options.now) piece stage
            (at input.old writers.old self.old) (at input.new writers.new self.new) result }
    {
        match stage {
            Stage::Contact => self.open(options, input, writers),
            Stage::Message => self.take_message(options, input, writers),
            Stage::Data { last } => self.take_data(last, piece, options, input, writers),
            Stage::Stray => Self::pass_stray(piece, input, writers),
        }
    }

    /// Reads the contact header, and tells the consumer of it.
    ///
    /// It takes no data. So the limit in the contract, 4096 bytes of data, does not matter.
    fn open<R: InDevice, W: OutDevice, E: OutDevice>(
        &mut self,
        options: &C::Options,
        input: &mut Input<Session<R>, W, E>,
        writers: &mut Writers<W, E>,
    ) -> Next<Stage>
        requires { IsTrue (may_open (feed_of input.old)) }
        ensures fits { IsTrue (may_follow result (feed_of input.new)) }
        ensures gives { Steps (looks R.state W.state E.state) (C.telling options.now)
            (C.knows options.now) 4096 Stage.Contact
            (at input.old writers.old self.old) (at input.new writers.new self.new) result }
    {
        match input.open(writers) {
            Ok(contact) => {
                let view = EventView::Contact(&contact);
                Next::of(Stage::Message, self.consumer.event(options, view, writers))
            }
            Err(stop) => Next::Ended(writers.end(stop)),
        }
    }

    /// Reads the head of a message, and tells the consumer of it.
    ///
    /// It takes no data. So the limit in the contract, 4096 bytes of data, does not matter.
    #[inline(always)]
    fn take_message<R: InDevice, W: OutDevice, E: OutDevice>(
        &mut self,
        options: &C::Options,
        input: &mut Input<Session<R>, W, E>,
        writers: &mut Writers<W, E>,
    ) -> Next<Stage>
        requires { IsTrue (may_read (feed_of input.old)) }
        ensures fits { IsTrue (may_follow result (feed_of input.new)) }
        ensures gives { Steps (looks R.state W.state E.state) (C.telling options.now)
            (C.knows options.now) 4096 Stage.Message
            (at input.old writers.old self.old) (at input.new writers.new self.new) result }
    {
        let offset = match input.next_message(writers, &mut self.message) {
            Ok(Some(offset)) => offset,
            Ok(None) => return Next::Ended(self.finish(options, writers)),
            Err(stop) => return Next::Ended(writers.end(stop)),
        };
        match self.joiner.event(Event::of_fields(self.message.fields)) {
            Ok(turn) => self.tell_head(offset, None, Some(turn), options, input, writers),
            Err(fault) => self.take_refused(offset, fault, options, input, writers),
        }
    }

    /// Takes a message that is not in order, or ends the run there, as the tool's manner says.
    ///
    /// In the contract, `taken` are the messages before it on which its order depends, and `events`
    /// are the events so far.
    #[cold]
    #[inline(never)]
    fn take_refused<R: InDevice, W: OutDevice, E: OutDevice>(
        &mut self,
        offset: u64,
        fault: OrderFault,
        options: &C::Options,
        input: &Input<Session<R>, W, E>,
        writers: &mut Writers<W, E>,
    ) -> Next<Stage>
        requires totals { IfSegmentItemsHaveTotals self.old.message }
        requires opened { IsTrue (is_opened (feed_of input.now)) }
        ensures fits { IsTrue (may_follow result (feed_of input.now)) }
        ensures stops { (C.telling options.now).manner.goes_on ≡ false
            → EndsAtRefusedHead W.state E.state offset fault writers.old writers.new result }
        ensures goes_on { (taken : List Message) (events : List WalkEvent)
            → (C.telling options.now).manner.goes_on ≡ true → IsJoinerAt self.old.joiner taken
            → refusal taken (event_of (message_of self.old.message)) ≡ Some fault
            → C.knows options.now self.old.consumer events
            → has_open events ≡ is_some (open_of taken)
            → IsJoinerAt self.new.joiner (with_taken taken (message_of self.old.message))
            × TellsHead W.state E.state (C.telling options.now)
            (C.knows options.now self.new.consumer) events
            (head_at taken offset (message_of self.old.message)) (left_of (feed_of input.now))
            writers.old writers.new result }
    {
        if !C::manner(options).goes_on {
            return Next::Ended(writers.report_fault(&Fault::Order(offset, fault)));
        }
        let taken = self.joiner.take(Event::of_fields(self.message.fields));
        self.tell_head(offset, Some(fault), taken.turn, options, input, writers)
    }

    /// Tells the consumer of the head of the message, unless the head is plain and the consumer is
    /// not told of all heads. Returns the next stage, or the end of the run if a writer failed.
    ///
    /// In the contract, `taken` are the messages before it on which its order depends, and `events`
    /// are the events so far.
    #[inline(always)]
    fn tell_head<R: InDevice, W: OutDevice, E: OutDevice>(
        &mut self,
        offset: u64,
        fault: Option<OrderFault>,
        turn: Option<Turn>,
        options: &C::Options,
        input: &Input<Session<R>, W, E>,
        writers: &mut Writers<W, E>,
    ) -> Next<Stage>
        requires totals { IfSegmentItemsHaveTotals self.old.message }
        requires opened { IsTrue (is_opened (feed_of input.now)) }
        ensures joiner { self.new.joiner ≡ self.old.joiner }
        ensures fits { IsTrue (may_follow result (feed_of input.now)) }
        ensures gives { (taken : List Message) (events : List WalkEvent)
            → fault ≡ refusal taken (event_of (message_of self.old.message))
            → turn ≡ effect_of taken (event_of (message_of self.old.message))
            → C.knows options.now self.old.consumer events
            → has_open events ≡ is_some (open_of taken)
            → TellsHead W.state E.state (C.telling options.now)
            (C.knows options.now self.new.consumer) events
            (head_at taken offset (message_of self.old.message)) (left_of (feed_of input.now))
            writers.old writers.new result }
    {
        let head = HeadView {
            offset,
            message: &self.message,
            fault,
            turn,
        };
        if !C::manner(options).all_heads && head.is_plain() {
            return Next::Stage(stage_by(turn, input.left()));
        }
        match self.consumer.event(options, EventView::Head(head), writers) {
            Ok(()) => Next::Stage(stage_by(turn, input.left())),
            Err(fault) => Next::Ended(Err(fault)),
        }
    }

    /// Passes over a piece of a stray segment's data, of at most `piece` bytes. The consumer is
    /// told nothing, so `gives` holds for any options and any walker.
    #[cold]
    #[inline(never)]
    fn pass_stray<R: InDevice, W: OutDevice, E: OutDevice>(
        piece: usize,
        input: &mut Input<Session<R>, W, E>,
        writers: &mut Writers<W, E>,
    ) -> Next<Stage>
        requires opened { IsTrue (is_opened (feed_of input.old)) }
        requires piece { 0 < piece }
        ensures fits { IsTrue (may_follow result (feed_of input.new)) }
        ensures gives { (options : C.Options) (walker : Walker C)
            → Steps (looks R.state W.state E.state) (C.telling options) (C.knows options) piece
            Stage.Stray (at input.old writers.old walker) (at input.new writers.new walker) result }
    {
        let size = match input.load_data(writers) {
            Ok(ready) => ready.min(piece),
            Err(stop) => return Next::Ended(writers.end(stop)),
        };
        input.pass(size);
        Next::Stage(stage_by(None, input.left()))
    }

    /// Reads a piece of the open transfer's data, of at most `piece` bytes. `last` is whether their
    /// segment is the last of the transfer.
    //
    // Not inlined: most strides begin with a message, and the code for them should not share its
    // registers with this.
    #[inline(never)]
    fn take_data<R: InDevice, W: OutDevice, E: OutDevice>(
        &mut self,
        last: bool,
        piece: usize,
        options: &C::Options,
        input: &mut Input<Session<R>, W, E>,
        writers: &mut Writers<W, E>,
    ) -> Next<Stage>
        requires opened { IsTrue (is_opened (feed_of input.old)) }
        requires piece { 0 < piece }
        ensures fits { IsTrue (may_follow result (feed_of input.new)) }
        ensures gives { Steps (looks R.state W.state E.state) (C.telling options.now)
            (C.knows options.now) piece (Stage.Data last)
            (at input.old writers.old self.old) (at input.new writers.new self.new) result }
    {
        match input.load_data(writers) {
            Ok(ready) => self.take_loaded(last, ready.min(piece), options, input, writers),
            Err(stop) => Next::Ended(writers.end(stop)),
        }
    }

    /// Takes the next `size` bytes of the open transfer's data, which are at hand. `last` is
    /// whether their segment is the last of the transfer.
    #[inline(always)]
    fn take_loaded<R: InDevice, W: OutDevice, E: OutDevice>(
        &mut self,
        last: bool,
        size: usize,
        options: &C::Options,
        input: &mut Input<Session<R>, W, E>,
        writers: &mut Writers<W, E>,
    ) -> Next<Stage>
        requires opened { IsTrue (is_opened (feed_of input.old)) }
        requires size { size ≤ length (data_in R.state (feed_of input.old)) }
        ensures fits { IsTrue (may_follow result (feed_of input.new)) }
        ensures gives { 0 < size → Steps (looks R.state W.state E.state) (C.telling options.now)
            (C.knows options.now) size (Stage.Data last)
            (at input.old writers.old self.old) (at input.new writers.new self.new) result }
        ensures unread { ReadsNothing R.state source_of input.old input.new }
    {
        let whole = is_last_data(last, size, input.left());
        let bytes = &input.loaded()[..size];
        let data = EventView::Data { bytes, whole };
        if let Err(fault) = self.consumer.event(options, data, writers) {
            input.pass(size);
            return Next::Ended(Err(fault));
        }
        input.pass(size);
        Next::Stage(stage_by(Some(Turn::Continue { last }), input.left()))
    }

    /// Takes the inner segments of the open transfer that lie whole in the window, one after
    /// another.
    ///
    /// A bundle in short segments has hundreds of them in one window. So they are taken without the
    /// judgement of their order and the stages of a step.
    #[inline(always)]
    fn take_inner<R: InDevice, W: OutDevice, E: OutDevice>(
        &mut self,
        options: &C::Options,
        input: &mut Input<Session<R>, W, E>,
        writers: &mut Writers<W, E>,
    ) -> Next<Stage>
        requires { IsTrue (may_read (feed_of input.old)) }
        ensures fits { IsTrue (may_follow result (feed_of input.new)) }
        ensures gives { TakesMessages (looks R.state W.state E.state) (C.telling options.now)
            (C.knows options.now)
            (at input.old writers.old self.old) (at input.new writers.new self.new) result }
        ensures unread { ReadsNothing R.state source_of input.old input.new }
    {
        let Some(id) = self.joiner.continuable() else {
            return Next::Stage(Stage::Message);
        };
        self.message.items.clear();
        'segments: while let Some(content) = input.inner_data(id) {
            let size = content.len();
            let offset = input.given();
            match self.tell_inner(offset, id, content, options, writers) {
                Ok(()) => input.pass_inner(size),
                Err(fault) => {
                    input.pass_inner(size);
                    return Next::Ended(Err(fault));
                }
            }
        }
        Next::Stage(Stage::Message)
    }

    /// Tells the consumer of an inner segment of the open transfer. A consumer that is told of
    /// every head is told of the head and the data, and any other consumer only of the data.
    ///
    /// `self.message` must have no items. It may be overwritten with the message of the segment.
    #[inline(always)]
    fn tell_inner<W: OutDevice, E: OutDevice>(
        &mut self,
        offset: u64,
        id: u64,
        bytes: &[u8],
        options: &C::Options,
        writers: &mut Writers<W, E>,
    ) -> Result<(), IoFault>
        requires { self.old.message.items.items ≡ [] }
        ensures items { self.new.message.items.items ≡ [] }
        ensures joiner { self.new.joiner ≡ self.old.joiner }
        ensures gives { (before : List WalkEvent) → C.knows options.now self.old.consumer before
            → HeadComes before (inner_head offset id (length bytes.now))
            → has_open before ≡ true → data_size before + length bytes.now < 2 ^ 63
            → Tells W.state E.state (C.telling options.now) (C.knows options.now self.new.consumer)
            before (inner_events (C.telling options.now).manner.all_heads
            (inner_head offset id (length bytes.now)) bytes.now) writers.old writers.new result }
    {
        if !C::manner(options).all_heads {
            let data = EventView::Data {
                bytes,
                whole: false,
            };
            return self.consumer.event(options, data, writers);
        }
        self.message.fields = Fields::Segment {
            flags: 0,
            id,
            length: bytes.len() as u64,
        };
        let consumer = &mut self.consumer;
        Self::tell_whole(offset, &self.message, bytes, options, writers, consumer)
    }

    /// Tells the consumer of an inner segment with this head, and of all of its data.
    #[inline(always)]
    fn tell_whole<'a, W: OutDevice, E: OutDevice>(
        offset: u64,
        message: &'a MessageBuffer,
        bytes: &'a [u8],
        options: &C::Options,
        writers: &mut Writers<W, E>,
        consumer: &mut C,
    ) -> Result<(), IoFault>
        requires { IfSegmentItemsHaveTotals message.now }
        ensures { (id : ℕ) (before : List WalkEvent)
            → message_of message.now ≡ inner_segment id (length bytes.now)
            → (C.telling options.now).manner.all_heads ≡ true
            → C.knows options.now consumer.old before
            → HeadComes before (inner_head offset id (length bytes.now))
            → has_open before ≡ true → data_size before + length bytes.now < 2 ^ 63
            → Tells W.state E.state (C.telling options.now) (C.knows options.now consumer.new)
            before (inner_events true (inner_head offset id (length bytes.now)) bytes.now)
            writers.old writers.new result }
    {
        let head = HeadView {
            offset,
            message,
            fault: None,
            turn: Some(Turn::Continue { last: false }),
        };
        consumer.event(options, EventView::Inner { head, bytes }, writers)
    }

    /// Ends the run after a stream that ends between two messages, and returns the status. If a
    /// transfer is still open, the consumer is told so before.
    #[inline(never)]
    fn finish<W: OutDevice, E: OutDevice>(
        &mut self,
        options: &C::Options,
        writers: &mut Writers<W, E>,
    ) -> Result<Status, IoFault>
        ensures gives { (taken : List Message) (events : List WalkEvent)
            → IsJoinerAt self.old.joiner taken → C.knows options.now self.old.consumer events
            → has_open events ≡ is_some (open_of taken)
            → TellsEnd W.state E.state (C.telling options.now) taken events writers.old writers.new
            result }
    {
        if self.joiner.open().is_some() {
            self.consumer.event(options, EventView::LeftOpen, writers)?;
        }
        if self.consumer.is_good(options) {
            Ok(Status::CLEAN)
        } else {
            Ok(Status::NOT_GOOD)
        }
    }
}

/// The stage after a head or after data, with `left` bytes of data to come.
#[inline(always)]
fn stage_by(turn: Option<Turn>, left: u64) -> Stage
    ensures { result ≡ stage_by turn left }
{
    if left == 0 {
        return Stage::Message;
    }
    if turn.is_none() {
        return Stage::Stray;
    }
    Stage::Data {
        last: is_last(turn),
    }
}

/// Whether the next `size` bytes of data are the last of the open transfer. `last` is whether their
/// segment is its last, and `left` bytes of the segment's data are to come.
#[inline(always)]
fn is_last_data(last: bool, size: usize, left: u64) -> bool
    ensures { result ≡ (last && (size == left)) }
{
    last && size as u64 == left
}

/// Makes a run of a tool over transfers that has read and written nothing.
pub fn walk_run<R: InDevice, W: OutDevice, E: OutDevice, C: Consumer + Drop>(
    options: C::Options,
    consumer: C,
    reader: R,
    output: W,
    report: E,
) -> WalkRun<R, W, E, C>
    requires knows { C.knows options consumer [] }
    requires silent { (C.telling options).texts [] ≡ no_texts }
    requires sound { NoneFailed (looks R.state W.state E.state) (devices reader output report) }
    ensures { IsNewRun ⟦<WalkRun<R, W, E, C> as Run<R, W, E>>⟧
        (tool_of (told_of (C.telling options))) (devices reader output report) result }
{
    let walk = Walk {
        options,
        stage: Stage::Contact,
        walker: Walker {
            message: MessageBuffer::new(),
            joiner: Joiner::new(),
            consumer,
        },
    };
    ToolRun::new(walk, Session::new(Source::new(reader)), output, report)
}
