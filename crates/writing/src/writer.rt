// The fields of a message's frame, its checks, and the frame itself.
ghost use Rattle.entries.specs.Bytes.{Octets};
ghost use Rattle.entries.specs.Histories.{codes_of};
ghost use Rattle.refusal.specs.Answers.{and_then};
ghost use Rattle.frames.specs.Letters.{fields_of, letter_answer};
ghost use Rattle.std.specs.Prelude.{◌≡◌, ◌*◌, ◌≤◌, length, take, Ok};
ghost use Rattle.frames.specs.Reading.{letter};
ghost use Rattle.writing.specs.Writing.{borrowed, room_answer, write_answer, written};

use crate::buffers::Layout;
use frames::{Fields, Frame, FrameKind, Message, check_bounds, check_count, check_ranges};
use orders::OrderKind;
use refusal::Refusal;

// The fields of a frame that says the least, which every other adds to.
pub(crate) fn bare(sender: u8, epoch: u32) -> Fields
    ensures { result ≡ record { kind = FrameKind.Promise; sender = sender; count = 0; epoch = epoch; first = 0; second = 0 } }
{
    Fields {
        kind: FrameKind::Promise,
        sender,
        count: 0,
        epoch,
        first: 0,
        second: 0,
    }
}

fn fields_of(frame: &Frame<'_>) -> Fields
    ensures { result ≡ fields_of (letter frame.now) }
{
    let bare = bare(frame.sender, frame.epoch);
    match frame.message {
        Message::Candidate { accepted, length } => Fields {
            kind: FrameKind::Candidate,
            first: accepted,
            second: length,
            ..bare
        },
        Message::Promise => bare,
        Message::History { mark, entries } => Fields {
            kind: FrameKind::History,
            count: entries.len() / 16,
            first: mark,
            ..bare
        },
        Message::Entry { position, mark, .. } => Fields {
            kind: FrameKind::Entry,
            count: 1,
            first: position,
            second: mark,
            ..bare
        },
        Message::Acknowledge { length } => Fields {
            kind: FrameKind::Acknowledge,
            first: length,
            ..bare
        },
        Message::Commit { mark } => Fields {
            kind: FrameKind::Commit,
            first: mark,
            ..bare
        },
    }
}

fn borrowed<'a>(message: Message<'a>) -> &'a [u8]
    ensures { result.now ≡ borrowed message.entry }
{
    match message {
        Message::History { entries, .. } => entries,
        Message::Entry { entry, .. } => entry,
        Message::Candidate { .. }
        | Message::Promise
        | Message::Acknowledge { .. }
        | Message::Commit { .. } => &[],
    }
}

// The first entries of those bytes.
fn front(bytes: &[u8], count: usize) -> &[u8]
    requires { 16 * count ≤ length bytes.now }
    ensures octets { Octets bytes.now }
    ensures part { result.now ≡ take (16 * count) bytes.now }
{
    &bytes[..16 * count]
}

pub(crate) fn check_room(room: usize, fields: &Fields) -> Result<(), Refusal>
    ensures { result ≡ room_answer room fields.now }
{
    if room >= 24 && (room - 24) / 16 >= fields.count {
        Ok(())
    } else {
        Err(Refusal::NoTray)
    }
}

// 12 or 13 for a message that no frame may carry.
fn check_letter<K: OrderKind>(cabinets: u8, limit: u16, frame: &Frame<'_>) -> Result<(), Refusal>
    ensures { result ≡ letter_answer (codes_of K.decode) cabinets limit (letter frame.now) }
{
    let fields = fields_of(frame);
    check_count(limit, &fields)?;
    check_ranges::<K>(cabinets, limit, &fields, borrowed(frame.message))
}

// The fields of the frame, once nothing speaks against it.
fn check<K: OrderKind>(
    cabinets: u8,
    limit: u16,
    frame: &Frame<'_>,
    room: usize,
) -> Result<Fields, Refusal>
    ensures { result ≡ and_then (write_answer (codes_of K.decode) cabinets limit room (letter frame.now)) (λ _. Ok (fields_of (letter frame.now))) }
{
    check_bounds(cabinets, limit)?;
    let fields = fields_of(frame);
    check_room(room, &fields)?;
    check_letter::<K>(cabinets, limit, frame)?;
    Ok(fields)
}

// The message as a frame in the caller's buffer, with zeros behind it; answers the frame's length.
// A refused call leaves the buffer as it was.
pub fn write<K: OrderKind>(
    cabinets: u8,
    limit: u16,
    frame: &Frame<'_>,
    out: &mut [u8],
) -> Result<u16, Refusal>
    ensures answer { result ≡ write_answer (codes_of K.decode) cabinets limit (length out.old) (letter frame.now) }
    ensures buffer { out.new ≡ written out.old (letter frame.now) (write_answer (codes_of K.decode) cabinets limit (length out.old) (letter frame.now)) }
{
    let fields = check::<K>(cabinets, limit, frame, out.len())?;
    let part = front(borrowed(frame.message), fields.count);
    Ok(Layout { fields, part }.put(out))
}
