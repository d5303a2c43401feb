ghost use Rattle.std.specs.Prelude.{◌≡◌};
ghost use Rattle.frames.specs.Reading.{letter, said};
ghost use Rattle.reactions.specs.Reactions.{addressed, timely, expected, admitted};

use cabinet::{Cabinet, LEADS, STANDS};
use frames::{Frame, Message};
use refusal::Refusal;

// Whether a frame is neither the cabinet's own broadcast nor a reply for another.
fn is_addressed(frame: &Frame<'_>, number: u8) -> bool
    ensures { result ≡ addressed number frame.now.sender frame.now.epoch (said frame.now.message) }
{
    match frame.message {
        Message::Promise | Message::Acknowledge { .. } => frame.epoch % 16 == number as u32,
        Message::Candidate { .. }
        | Message::History { .. }
        | Message::Entry { .. }
        | Message::Commit { .. } => frame.sender != number,
    }
}

// Whether its epoch is not below the promised one, and a candidate's above it.
fn is_timely(cabinet: &Cabinet, frame: &Frame<'_>) -> bool
    ensures { result ≡ timely cabinet.now frame.now.epoch (said frame.now.message) }
{
    match frame.message {
        Message::Candidate { .. } => cabinet.promised < frame.epoch,
        Message::Promise
        | Message::History { .. }
        | Message::Entry { .. }
        | Message::Acknowledge { .. }
        | Message::Commit { .. } => cabinet.promised <= frame.epoch,
    }
}

// Whether the cabinet stands at the epoch of a promise, leads that of an acknowledge, has accepted that of an entry or a commit.
fn is_expected(cabinet: &Cabinet, frame: &Frame<'_>) -> bool
    ensures { result ≡ expected cabinet.now frame.now.epoch (said frame.now.message) }
{
    let promised = cabinet.promised == frame.epoch;
    let accepted = cabinet.accepted == frame.epoch;
    match frame.message {
        Message::Candidate { .. } | Message::History { .. } => true,
        Message::Promise => cabinet.role == STANDS && promised,
        Message::Acknowledge { .. } => cabinet.role == LEADS && promised,
        Message::Entry { .. } | Message::Commit { .. } => promised && accepted,
    }
}

// Whether a frame is one for the cabinet: 20, 21, 22.
pub(crate) fn check_letter(cabinet: &Cabinet, number: u8, frame: &Frame<'_>) -> Result<(), Refusal>
    ensures { result ≡ admitted number cabinet.now (letter frame.now) }
{
    if !is_addressed(frame, number) {
        return Err(Refusal::WrongAddress);
    }
    if !is_timely(cabinet, frame) {
        return Err(Refusal::OldEpoch);
    }
    if !is_expected(cabinet, frame) {
        return Err(Refusal::OtherEpoch);
    }
    Ok(())
}
