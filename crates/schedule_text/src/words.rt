ghost use Rattle.std.specs.Prelude.{◌≡◌, ◌≤◌, ◌^◌, IfSome, IfNone};
ghost use Rattle.schedule_text.specs.Words as spec;

use crate::schedule::Event;
use hal_base::read_number;

/// What a line of the head gives a number to.
#[derive(Clone, Copy)]
pub(crate) enum Setting {
    Nodes,
    Slots,
    Copies,
    Block,
    Attempts,
    Keep,
}

/// The sort of an event.
#[derive(Clone, Copy)]
pub(crate) enum EventKind {
    Done,
    Fail,
    Lose,
    Back,
    Wipe,
    Busy,
    Idle,
    Round,
}

/// The setting of this word, if it is one.
#[tactic(auto, unfolding(crate::specs::Words::setting_named))]
pub(crate) fn setting_named(word: &[u8]) -> Option<Setting>
    ensures { result ≡ spec.setting_named word.now }
{
    match word {
        b"nodes" => Some(Setting::Nodes),
        b"slots" => Some(Setting::Slots),
        b"copies" => Some(Setting::Copies),
        b"block" => Some(Setting::Block),
        b"attempts" => Some(Setting::Attempts),
        b"keep" => Some(Setting::Keep),
        _ => None,
    }
}

/// The sort of events of this word, if it is one.
#[tactic(auto, unfolding(crate::specs::Words::event_named))]
pub(crate) fn event_named(word: &[u8]) -> Option<EventKind>
    ensures { result ≡ spec.event_named word.now }
{
    match word {
        b"done" => Some(EventKind::Done),
        b"fail" => Some(EventKind::Fail),
        b"lose" => Some(EventKind::Lose),
        b"back" => Some(EventKind::Back),
        b"wipe" => Some(EventKind::Wipe),
        b"busy" => Some(EventKind::Busy),
        b"idle" => Some(EventKind::Idle),
        b"round" => Some(EventKind::Round),
        _ => None,
    }
}

impl Setting {
    /// The greatest number that the setting may have.
    pub(crate) fn most(self) -> u32
        ensures { result ≡ spec.most self }
    {
        match self {
            Setting::Nodes => 64,
            Setting::Slots | Setting::Copies => 8,
            Setting::Block => 1_000_000,
            Setting::Attempts => 16,
            Setting::Keep => 1_000,
        }
    }
}

impl EventKind {
    /// The event of this sort with this number.
    pub(crate) fn event(self, number: u32) -> Event
        ensures { result ≡ spec.event_of self number }
    {
        match self {
            EventKind::Done => Event::Done(number),
            EventKind::Fail => Event::Fail(number),
            EventKind::Lose => Event::Lose(number),
            EventKind::Back => Event::Back(number),
            EventKind::Wipe => Event::Wipe(number),
            EventKind::Busy => Event::Busy(number),
            EventKind::Idle => Event::Idle(number),
            EventKind::Round => Event::Round(number),
        }
    }

    /// Whether an event of this sort may have this number, where there are so many nodes.
    pub(crate) fn in_range(self, nodes: u32, number: u32) -> bool
        ensures { result ≡ spec.in_range nodes self number }
    {
        match self {
            EventKind::Round => 1 <= number && number <= 10_000,
            _ => number < nodes,
        }
    }
}

/// The number that is spelled so, without a sign and without a 0 at its front.
pub(crate) fn number_of(piece: &[u8]) -> Option<u32>
    ensures { result ≡ spec.number_of piece.now }
{
    let number = read_number(piece)?;
    u32::try_from(number).ok()
}

/// What a word may stand for.
pub(crate) trait Worded: Sized {
    ghost use Rattle.std.specs.Prelude.{ℕ, List, Option};

    ghost of_word: { List ℕ → Option Self };

    fn named(word: &[u8]) -> Option<Self>
        ensures { result ≡ of_word word.now };
}

impl Worded for Setting {
    ghost of_word = { spec.setting_named };

    fn named(word: &[u8]) -> Option<Setting> {
        setting_named(word)
    }
}

impl Worded for EventKind {
    ghost of_word = { spec.event_named };

    fn named(word: &[u8]) -> Option<EventKind> {
        event_named(word)
    }
}
