// What a cabinet says, as a frame in the caller's buffer: nothing is asked but the list, the entry that is named, and room.
ghost use Rattle.std.specs.Prelude.{length};
ghost use Rattle.cabinet.specs.declared.Reply.TheVariants.{Entry as EntryReply, History as HistoryReply};
ghost use Rattle.writing.specs.Replies.{Filled, bare_answer, bare_frame, reply_answer};
ghost use Rattle.writing.specs.Speaking.{letter_said, spoken_into};

use crate::buffers::Layout;
use crate::journals::ListPart;
use crate::writer::bare;
use cabinet::Reply;
use entries::bytes_of;
use frames::{Fields, FrameKind};
use journal::Journal;
use refusal::Refusal;

// The owner's list as a history.
fn write_list<J: Journal>(
    sender: u8,
    epoch: u32,
    mark: u16,
    journal: &J,
    owner: u16,
    out: &mut [u8],
) -> Result<u16, Refusal>
    ensures { Filled out.old out.new result
        (reply_answer (J.owners journal.now) owner (length out.old) sender epoch (J.lists journal.now owner) (HistoryReply mark))
        (spoken_into out.old (letter_said sender epoch (J.lists journal.now owner) (HistoryReply mark))) }
{
    let count = journal.length(owner)? as usize;
    let fields = Fields {
        kind: FrameKind::History,
        count,
        first: mark as u32,
        ..bare(sender, epoch)
    };
    let part = ListPart { journal, owner };
    Layout { fields, part }.put_if_room(out)
}

// One entry of the owner's list.
fn write_entry<J: Journal>(
    sender: u8,
    epoch: u32,
    position: u16,
    mark: u16,
    journal: &J,
    owner: u16,
    out: &mut [u8],
) -> Result<u16, Refusal>
    ensures { Filled out.old out.new result
        (reply_answer (J.owners journal.now) owner (length out.old) sender epoch (J.lists journal.now owner) (EntryReply position mark))
        (spoken_into out.old (letter_said sender epoch (J.lists journal.now owner) (EntryReply position mark))) }
{
    let entry = journal.entry(owner, position)?;
    let fields = Fields {
        kind: FrameKind::Entry,
        count: 1,
        first: position as u32,
        second: mark as u32,
        ..bare(sender, epoch)
    };
    let bytes = bytes_of(entry);
    let part = bytes.as_slice();
    Layout { fields, part }.put_if_room(out)
}

// A frame without entries.
fn write_bare(
    kind: FrameKind,
    sender: u8,
    epoch: u32,
    first: u32,
    second: u16,
    out: &mut [u8],
) -> Result<u16, Refusal>
    ensures { Filled out.old out.new result
        (bare_answer (length out.old))
        (bare_frame kind sender epoch first second out.old) }
{
    let fields = Fields {
        kind,
        first,
        second: second as u32,
        ..bare(sender, epoch)
    };
    let part: &[u8] = &[];
    Layout { fields, part }.put_if_room(out)
}

// What a cabinet says of its own list, as a frame with zeros behind it; answers the frame's length, and 0 for nothing.
// Refused by 2 where there is no such owner, by 50 where the list has no entry at the reply's position, by 3 for want of room.
// A refused call leaves the buffer as it was.
pub fn write_reply<J: Journal>(
    sender: u8,
    epoch: u32,
    reply: Reply,
    journal: &J,
    owner: u16,
    out: &mut [u8],
) -> Result<u16, Refusal>
    ensures { Filled out.old out.new result
        (reply_answer (J.owners journal.now) owner (length out.old) sender epoch (J.lists journal.now owner) reply)
        (spoken_into out.old (letter_said sender epoch (J.lists journal.now owner) reply)) }
{
    if owner >= journal.owners() {
        return Err(Refusal::NoCabinet);
    }
    match reply {
        Reply::Nothing => Ok(0),
        Reply::Candidate { accepted, length } => {
            write_bare(FrameKind::Candidate, sender, epoch, accepted, length, out)
        }
        Reply::Promise => write_bare(FrameKind::Promise, sender, epoch, 0, 0, out),
        Reply::History { mark } => write_list(sender, epoch, mark, journal, owner, out),
        Reply::Entry { position, mark } => {
            write_entry(sender, epoch, position, mark, journal, owner, out)
        }
        Reply::Acknowledge { length } => {
            write_bare(FrameKind::Acknowledge, sender, epoch, length as u32, 0, out)
        }
        Reply::Commit { mark } => write_bare(FrameKind::Commit, sender, epoch, mark as u32, 0, out),
    }
}
