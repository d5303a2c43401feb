// A frame's header, taken apart and checked.
ghost use Rattle.frames.specs.Fields.{bounds_answer, count_answer, count_fits, fields_answer, header_of, numbers_fit, numbers_of, sender_fits, sent_by_owner, shape_answer, zeros_in};
ghost use Rattle.std.specs.Prelude.{◌≡◌};

use crate::{Fields, FrameKind, Header, Numbers};
use refusal::Refusal;

// 1 for a number of cabinets or a limit outside its bounds. The two stay apart, here and in the writer: one is a
// table's, the other a journal's, and no value holds both.
pub fn check_bounds(cabinets: u8, limit: u16) -> Result<(), Refusal>
    ensures { result ≡ bounds_answer cabinets limit }
{
    if (1..=16).contains(&cabinets) && (2..=4000).contains(&limit) {
        Ok(())
    } else {
        Err(Refusal::OutOfBounds)
    }
}

// Whether the six bytes that end a header are zeros; what lies behind them is not looked at.
fn is_zero(bytes: &[u8]) -> bool
    ensures { result ≡ zeros_in bytes.now }
{
    matches!(bytes, [0, 0, 0, 0, 0, 0, ..])
}

// The numbers that follow a header's epoch.
fn read_numbers(bytes: &[u8]) -> Result<Numbers, Refusal>
    ensures { result ≡ numbers_of bytes.now }
{
    let [f0, f1, f2, f3, s0, s1, s2, s3, l0, l1, rest @ ..] = bytes else {
        return Err(Refusal::FrameShort);
    };
    if rest.len() < 6 {
        return Err(Refusal::FrameShort);
    }
    Ok(Numbers {
        first: u32::from_le_bytes([*f0, *f1, *f2, *f3]),
        second: u32::from_le_bytes([*s0, *s1, *s2, *s3]),
        length: u16::from_le_bytes([*l0, *l1]),
        zeros: is_zero(rest),
    })
}

pub(crate) fn read_header(bytes: &[u8]) -> Result<Header, Refusal>
    ensures { result ≡ header_of bytes.now }
{
    let [kind, sender, c0, c1, e0, e1, e2, e3, rest @ ..] = bytes else {
        return Err(Refusal::FrameShort);
    };
    Ok(Header {
        kind: *kind,
        sender: *sender,
        count: u16::from_le_bytes([*c0, *c1]),
        epoch: u32::from_le_bytes([*e0, *e1, *e2, *e3]),
        numbers: read_numbers(rest)?,
    })
}

fn count_fits(kind: FrameKind, limit: u16, count: usize) -> bool
    ensures { result ≡ count_fits kind limit count }
{
    match kind {
        FrameKind::History => (1..=limit as usize).contains(&count),
        FrameKind::Entry => count == 1,
        FrameKind::Candidate | FrameKind::Promise | FrameKind::Acknowledge | FrameKind::Commit =>
            count == 0,
    }
}

// 12 for a count of entries that the kind does not allow.
pub fn check_count(limit: u16, fields: &Fields) -> Result<(), Refusal>
    ensures { result ≡ count_answer limit fields.now }
{
    if count_fits(fields.kind, limit, fields.count) {
        Ok(())
    } else {
        Err(Refusal::FrameShape)
    }
}

// The fields of a header among `room` bytes: 10, 11 or 12 where its shape is wrong.
pub(crate) fn check_shape(limit: u16, room: usize, header: &Header) -> Result<Fields, Refusal>
    ensures { result ≡ shape_answer limit room header.now }
{
    if room < header.numbers.length as usize {
        return Err(Refusal::FrameShort);
    }
    let kind = FrameKind::try_from(header.kind)?;
    let count = header.count as usize;
    if !(count_fits(kind, limit, count)
        && header.numbers.length as usize == 24 + 16 * count
        && header.numbers.zeros)
    {
        return Err(Refusal::FrameShape);
    }
    Ok(Fields {
        kind,
        sender: header.sender,
        count,
        epoch: header.epoch,
        first: header.numbers.first,
        second: header.numbers.second,
    })
}

fn is_sent_by_owner(kind: FrameKind) -> bool
    ensures { result ≡ sent_by_owner kind }
{
    !matches!(kind, FrameKind::Promise | FrameKind::Acknowledge)
}

fn sender_fits(cabinets: u8, kind: FrameKind, epoch: u32, sender: u8) -> bool
    ensures { result ≡ sender_fits cabinets kind epoch sender }
{
    let owner = (epoch % 16) as u8;
    sender < cabinets && owner < cabinets && (!is_sent_by_owner(kind) || sender == owner)
}

fn numbers_fit(limit: u16, fields: &Fields) -> bool
    ensures { result ≡ numbers_fit fields.now.kind limit fields.now.epoch fields.now.count fields.now.first fields.now.second }
{
    let limit = limit as u32;
    let (first, second) = (fields.first, fields.second);
    match fields.kind {
        FrameKind::Candidate => first < fields.epoch && (1..=limit).contains(&second),
        FrameKind::Promise => first == 0 && second == 0,
        FrameKind::History => (1..=fields.count).contains(&(first as usize)) && second == 0,
        FrameKind::Entry => (1..limit).contains(&first) && (1..=first + 1).contains(&second),
        FrameKind::Acknowledge | FrameKind::Commit => (1..=limit).contains(&first) && second == 0,
    }
}

// 13 for a field outside its range.
pub fn check_fields(cabinets: u8, limit: u16, fields: &Fields) -> Result<(), Refusal>
    ensures { result ≡ fields_answer cabinets limit fields.now }
{
    if 1 <= fields.epoch
        && sender_fits(cabinets, fields.kind, fields.epoch, fields.sender)
        && numbers_fit(limit, fields)
    {
        Ok(())
    } else {
        Err(Refusal::FrameField)
    }
}
