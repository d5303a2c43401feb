// The reader: any bytes become a message or a refusal.
ghost use Rattle.entries.specs.Entries.{entries_of};
ghost use Rattle.entries.specs.Histories.{codes_of};
ghost use Rattle.frames.specs.Letters.{content_of, entries_fit, ranges_answer};
ghost use Rattle.frames.specs.Reading.{decode as decoded, letters, said};
ghost use Rattle.frames.specs.declared.FrameKind.TheVariants.{Entry};
ghost use Rattle.std.specs.Prelude.{◌≡◌};

use crate::headers::{check_bounds, check_fields, check_shape, read_header};
use crate::{Fields, Frame, FrameKind, Message};
use entries::{body_fits, entry, is_faultless};
use orders::OrderKind;
use refusal::Refusal;

// The message of a frame with these fields, whose entries lie in `part`.
fn message_of<'a>(fields: &Fields, part: &'a [u8]) -> Message<'a>
    ensures { said result ≡ content_of fields.now.kind fields.now.first fields.now.second (entries_of part.now) }
{
    let (first, second) = (fields.first, fields.second);
    match fields.kind {
        FrameKind::Candidate => Message::Candidate {
            accepted: first,
            length: second,
        },
        FrameKind::Promise => Message::Promise,
        FrameKind::History => Message::History {
            mark: first,
            entries: part,
        },
        FrameKind::Entry => Message::Entry {
            position: first,
            mark: second,
            entry: part,
        },
        FrameKind::Acknowledge => Message::Acknowledge { length: first },
        FrameKind::Commit => Message::Commit { mark: first },
    }
}

// Whether an entry frame's entry has the frame's epoch and a body of its kind.
fn entry_is_of<K: OrderKind>(cabinets: u8, epoch: u32, part: &[u8]) -> bool
    ensures { result ≡ entries_fit (codes_of K.decode) cabinets Entry epoch (entries_of part.now) }
{
    entry(part, 0).is_ok_and(|first| first.epoch == epoch && body_fits::<K>(cabinets, first))
}

fn entries_fit<K: OrderKind>(cabinets: u8, kind: FrameKind, epoch: u32, part: &[u8]) -> bool
    ensures { result ≡ entries_fit (codes_of K.decode) cabinets kind epoch (entries_of part.now) }
{
    match kind {
        FrameKind::History => is_faultless::<K>(cabinets, epoch, part),
        FrameKind::Entry => entry_is_of::<K>(cabinets, epoch, part),
        FrameKind::Candidate | FrameKind::Promise | FrameKind::Acknowledge | FrameKind::Commit =>
            true,
    }
}

// 13 for a field outside its range or for a fault in an entry.
pub fn check_ranges<K: OrderKind>(
    cabinets: u8,
    limit: u16,
    fields: &Fields,
    part: &[u8],
) -> Result<(), Refusal>
    ensures { result ≡ ranges_answer (codes_of K.decode) cabinets limit fields.now (entries_of part.now) }
{
    check_fields(cabinets, limit, fields)?;
    if entries_fit::<K>(cabinets, fields.kind, fields.epoch, part) {
        Ok(())
    } else {
        Err(Refusal::FrameField)
    }
}

// The message in a frame's bytes, for a table of that many cabinets and lists of at most `limit` entries.
// What lies behind the frame is not looked at.
pub fn read<'a, K: OrderKind>(
    cabinets: u8,
    limit: u16,
    bytes: &'a [u8],
) -> Result<Frame<'a>, Refusal>
    ensures { letters result ≡ decoded (codes_of K.decode) cabinets limit bytes.now }
{
    check_bounds(cabinets, limit)?;
    let header = read_header(bytes)?;
    let fields = check_shape(limit, bytes.len(), &header)?;
    let part = &bytes[24..24 + 16 * fields.count];
    check_ranges::<K>(cabinets, limit, &fields, part)?;
    Ok(Frame {
        sender: fields.sender,
        epoch: fields.epoch,
        message: message_of(&fields, part),
    })
}
