//! Handling the events of a read.

ghost use Rattle.std.specs.Prelude.{◌≡◌, [], ◌∷◌, IfOk, Some, if◌then◌else◌};
ghost use Rattle.tui_app.specs.Feeding.{
  HandlesBytes,
  HandlesButTicks,
  HandlesEvents,
  HandlesPart,
  no_reaction,
  none_handled,
};
ghost use Rattle.tui_app.specs.EventLoop.{
  Takes,
  decoded_of_read,
  events_of_read,
  is_tick,
  joined,
  keys_after_read,
  sized,
};
ghost use Rattle.tui_keys.specs.Events.{events_of, keys_after, events_in, some_of};
ghost use Rattle.tui_keys.specs.Steps.{paused};
ghost use Rattle.tui_keys.specs.declared.event.Event.TheVariants.{Tick};

use crate::app::{App, Flow};
use crate::terminal::READ_CAPACITY;
use std::alloc::Global;
use tui_cells::{Mem, Size};
use tui_keys::{Decoded, Event, KeyDecoder};

/// How the app goes on, and the last size among the events.
#[derive(Clone, Copy, Debug, PartialEq, Eq)]
pub(crate) struct Reaction {
    pub(crate) flow: Flow,
    pub(crate) size: Option<Size>,
}

/// The state after a read.
#[derive(Clone, Copy, Debug, PartialEq, Eq)]
pub(crate) struct AfterRead {
    pub(crate) keys: KeyDecoder,
    pub(crate) reaction: Reaction,
}

/// How the app reacted to the events that are no tick, and whether there was a tick.
#[derive(Clone, Copy, Debug, PartialEq, Eq)]
pub(crate) struct Handled {
    pub(crate) reaction: Reaction,
    pub(crate) ticked: bool,
}

/// The state within a read. A tick waits for the end of the read.
#[derive(Clone, Copy, Debug, PartialEq, Eq)]
pub(crate) struct PartOfRead {
    pub(crate) keys: KeyDecoder,
    pub(crate) handled: Handled,
}

/// Hands the events of a read to the app, and then one tick if there was any.
pub(crate) fn feed<A: App>(
    alloc: Global,
    app: &mut A,
    keys: KeyDecoder,
    bytes: &[u8],
) -> Mem<AfterRead>
    ensures { IfOk result (HandlesBytes A.behaviour app.old no_reaction (events_of_read keys bytes.now) (keys_after_read keys bytes.now) app.new) }
{
    let part = feed_all_but_ticks(alloc, app, keys, bytes)?;
    feed_tick(alloc, app, part)
}

// Hands the events of a read to the app, except for its ticks. The end of a short read is a pause for the decoder.
fn feed_all_but_ticks<A: App>(
    alloc: Global,
    app: &mut A,
    keys: KeyDecoder,
    bytes: &[u8],
) -> Mem<PartOfRead>
    ensures { IfOk result (HandlesPart A.behaviour app.old none_handled (decoded_of_read keys bytes.now) (keys_after_read keys bytes.now) app.new) }
{
    let part = feed_bytes(alloc, app, keys, bytes)?;
    if bytes.len() < READ_CAPACITY {
        pause(alloc, app, part)
    } else {
        Ok(part)
    }
}

// Hands a tick to the app if the read had any.
fn feed_tick<A: App>(alloc: Global, app: &mut A, part: PartOfRead) -> Mem<AfterRead>
    ensures { IfOk result (HandlesBytes A.behaviour app.old part.handled.reaction (if part.handled.ticked then Tick ∷ [] else []) part.keys app.new) }
{
    let mut reaction = part.handled.reaction;
    if part.handled.ticked {
        reaction = handle_event(alloc, app, Event::Tick, reaction)?;
    }
    Ok(AfterRead {
        keys: part.keys,
        reaction,
    })
}

// Hands the events of bytes to the app, except for ticks.
fn feed_bytes<A: App>(alloc: Global, app: &mut A, keys: KeyDecoder, bytes: &[u8]) -> Mem<PartOfRead>
    ensures { IfOk result (HandlesPart A.behaviour app.old none_handled (events_of keys bytes.now) (keys_after keys bytes.now) app.new) }
{
    let mut pending = keys;
    let mut handled = Handled {
        reaction: Reaction {
            flow: Flow::Go,
            size: None,
        },
        ticked: false,
    };
    'bytes: for i in 0..bytes.len() {
        let step = pending.step(bytes[i]);
        handled = handle_decoded(alloc, app, step, handled)?;
        pending = step.keys;
    }
    Ok(PartOfRead {
        keys: pending,
        handled,
    })
}

// Hands the events of the pause to the app.
fn pause<A: App>(alloc: Global, app: &mut A, part: PartOfRead) -> Mem<PartOfRead>
    ensures { IfOk result (HandlesPart A.behaviour app.old part.handled (events_in (paused part.keys)) (paused part.keys).keys app.new) }
{
    let step = part.keys.pause();
    let handled = handle_decoded(alloc, app, step, part.handled)?;
    Ok(PartOfRead {
        keys: step.keys,
        handled,
    })
}

// Hands both events of a step to the app, unless it has quit.
fn handle_decoded<A: App>(
    alloc: Global,
    app: &mut A,
    step: Decoded,
    before: Handled,
) -> Mem<Handled>
    ensures { IfOk result (HandlesButTicks A.behaviour app.old before (events_in step) app.new) }
{
    let next = handle(alloc, app, step.first, before)?;
    handle(alloc, app, step.second, next)
}

fn handle<A: App>(alloc: Global, app: &mut A, event: Option<Event>, before: Handled) -> Mem<Handled>
    ensures { IfOk result (HandlesButTicks A.behaviour app.old before (some_of event) app.new) }
{
    match event {
        None => Ok(before),
        Some(event) => handle_unless_tick(alloc, app, event, before),
    }
}

// Hands an event to the app. A tick is only noted, so that one stands for all that have piled up.
fn handle_unless_tick<A: App>(
    alloc: Global,
    app: &mut A,
    event: Event,
    before: Handled,
) -> Mem<Handled>
    ensures { IfOk result (HandlesButTicks A.behaviour app.old before (some_of (Some event)) app.new) }
{
    if is_tick(event) {
        return Ok(Handled {
            reaction: before.reaction,
            ticked: true,
        });
    }
    let reaction = handle_event(alloc, app, event, before.reaction)?;
    Ok(Handled {
        reaction,
        ticked: before.ticked,
    })
}

fn is_tick(event: Event) -> bool
    ensures { result ≡ is_tick event }
{
    match event {
        Event::Tick => true,
        _ => false,
    }
}

fn handle_event<A: App>(
    alloc: Global,
    app: &mut A,
    event: Event,
    reaction: Reaction,
) -> Mem<Reaction>
    ensures { IfOk result (HandlesEvents A.behaviour app.old reaction (some_of (Some event)) app.new) }
{
    let size = sized(reaction.size, event);
    let flow = take_event(alloc, app, event, reaction.flow)?;
    Ok(Reaction { flow, size })
}

fn take_event<A: App>(alloc: Global, app: &mut A, event: Event, flow: Flow) -> Mem<Flow>
    ensures { IfOk result (Takes A.behaviour app.old flow (some_of (Some event)) app.new) }
{
    match flow {
        Flow::Quit => Ok(Flow::Quit),
        _ => {
            let next = app.step(alloc, event)?;
            Ok(joined(flow, next))
        }
    }
}

fn joined(first: Flow, second: Flow) -> Flow
    ensures { result ≡ joined first second }
{
    match second {
        Flow::Go => first,
        _ => second,
    }
}

fn sized(size: Option<Size>, event: Event) -> Option<Size>
    ensures { result ≡ sized size event }
{
    match event {
        Event::Resize(width, height) => Some(Size { width, height }),
        _ => size,
    }
}
