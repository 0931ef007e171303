//! One line of a schedule.
ghost use Rattle.std.specs.Prelude.{◌≡◌, ℕ, ◌++◌, ◌∷◌, [], ◌<◌, List, MatchOption, position, ◌==◌};
ghost use Rattle.abi.specs.Limits as limit;
ghost use Rattle.schedule.specs.declared.event.Event.{Event as AnEvent};
ghost use Rattle.schedule_text.specs.Text.{IsEvent, IsFirstLine, IsWritable, decimal, words_of};

use abi::limits::MAX_WORKERS;
use schedule::Event;

/// The first line of a text.
#[derive(Clone, Copy)]
pub(crate) struct FirstLine<'a> {
    /// Its event.
    pub event: Event,
    /// What follows it.
    pub rest: &'a [u8],
}

/// The first line of a text, none where it begins with no event's line.
pub(crate) fn first_line(text: &[u8]) -> Option<FirstLine<'_>>
    ensures { MatchOption result
        ((event : AnEvent) (after : List ℕ) → IsWritable event → text.now ≡ words_of event ++ 10 ∷ after → ⊥)
        (λ line. IsFirstLine text.now line.event line.rest.now) }
{
    let Some(end) = newline(text) else {
        return None;
    };
    let Some(event) = event_of(&text[..end]) else {
        return None;
    };
    Some(FirstLine {
        event,
        rest: &text[end + 1..],
    })
}

/// Where the first newline of a text is.
fn newline(text: &[u8]) -> Option<usize>
    ensures { result ≡ position (λ byte. byte == 10) text.now }
{
    text.iter().position(|byte| *byte == b'\n')
}

/// The event of a line, which is given without its newline; none where it is no event.
#[tactic(auto, unfolding(crate::specs::Text::words_of))]
pub(crate) fn event_of(line: &[u8]) -> Option<Event>
    ensures { MatchOption result ((event : AnEvent) → IsEvent line.now event → ⊥) (IsEvent line.now) }
{
    match line {
        [b'd', b'r', b'a', b'w', b' ', digits @ ..] => Some(Event::Draw(worker_of(digits)?)),
        [b's', b't', b'e', b'p', b' ', digits @ ..] => Some(Event::Step(worker_of(digits)?)),
        [b'n', b'o', b't', b'e', b' ', digits @ ..] => Some(Event::Note(worker_of(digits)?)),
        [b's', b'k', b'i', b'p', b' ', digits @ ..] => Some(Event::Skip(worker_of(digits)?)),
        [b'p', b'o', b's', b't', b' ', digits @ ..] => Some(Event::Post(worker_of(digits)?)),
        b"hold" => Some(Event::Hold),
        b"turn" => Some(Event::Turn),
        _ => None,
    }
}

/// The number of a worker, 0 to 63, in decimal digits without a leading zero; none where it is no such number.
fn worker_of(digits: &[u8]) -> Option<u32>
    ensures { MatchOption result
        ((worker : ℕ) → worker < limit.workers → digits.now ≡ decimal worker → ⊥)
        (λ worker. (worker < limit.workers) × (digits.now ≡ decimal worker)) }
{
    let worker = match digits {
        [ones @ b'0'..=b'9'] => u32::from(*ones - b'0'),
        [tens @ b'1'..=b'6', ones @ b'0'..=b'9'] => {
            10 * u32::from(*tens - b'0') + u32::from(*ones - b'0')
        }
        _ => return None,
    };
    if worker < MAX_WORKERS {
        Some(worker)
    } else {
        None
    }
}
