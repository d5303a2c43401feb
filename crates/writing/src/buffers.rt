// Bytes into a buffer, and the layout of a frame.
ghost use Rattle.std.specs.Prelude.{◌≡◌, ℕ, ◌+◌, ◌-◌, ◌*◌, ◌≤◌, List, ◌++◌, length, take, replicate, Ok};
ghost use Rattle.frames.specs.Letters.{frame_length, header_bytes};
ghost use Rattle.refusal.specs.Answers.{and_then};
ghost use Rattle.writing.specs.Replies.{Filled};
ghost use Rattle.writing.specs.Writing.{over, room_answer};

use crate::writer::check_room;
use frames::Fields;
use refusal::Refusal;

pub(crate) fn put(out: &mut [u8], at: usize, bytes: &[u8])
    requires { at + length bytes.now ≤ length out.old }
    ensures { out.new ≡ over out.old at bytes.now }
{
    out[at..at + bytes.len()].copy_from_slice(bytes);
}

pub(crate) fn clear(out: &mut [u8], at: usize)
    requires { at ≤ length out.old }
    ensures { out.new ≡ take at out.old ++ replicate (length out.old - at) 0 }
{
    out[at..].fill(0);
}

// What lies behind a frame's header.
pub(crate) trait Part: Drop {
    ghost bytes: { Self → List ℕ };

    fn put_part(&self, out: &mut [u8])
        requires { 24 + length (bytes self.now) ≤ length out.old }
        ensures { out.new ≡ over out.old 24 (bytes self.now) };
}

impl Part for &[u8] {
    ghost bytes = { λ bytes. bytes.now };

    fn put_part(&self, out: &mut [u8]) {
        put(out, 24, self);
    }
}

// The fields of a frame and what lies behind its header: as many entries as they count, and no more than any list has.
#[derive(Drop)]
pub(crate) struct Layout<P: Part> {
    pub(crate) fields: Fields,
    pub(crate) part: P,
    ghost small: { fields.count ≤ 4000 },
    ghost whole: { length (P.bytes part) ≡ 16 * fields.count },
}

impl<P: Part> Layout<P> {
    fn header(&self) -> [u8; 24]
        ensures { result ≡ header_bytes self.now.fields }
    {
        let fields = &self.fields;
        let count = fields.count as u16;
        let [c0, c1] = count.to_le_bytes();
        let [e0, e1, e2, e3] = fields.epoch.to_le_bytes();
        let [f0, f1, f2, f3] = fields.first.to_le_bytes();
        let [s0, s1, s2, s3] = fields.second.to_le_bytes();
        let [l0, l1] = (24 + 16 * count).to_le_bytes();
        [
            fields.kind.number(),
            fields.sender,
            c0,
            c1,
            e0,
            e1,
            e2,
            e3,
            f0,
            f1,
            f2,
            f3,
            s0,
            s1,
            s2,
            s3,
            l0,
            l1,
            0,
            0,
            0,
            0,
            0,
            0,
        ]
    }

    // The frame, with zeros behind it.
    pub(crate) fn put(self, out: &mut [u8]) -> u16
        requires { frame_length self.fields.count ≤ length out.old }
        ensures answer { result ≡ frame_length self.fields.count }
        ensures buffer { out.new ≡ (header_bytes self.fields ++ P.bytes self.part) ++ replicate (length out.old - frame_length self.fields.count) 0 }
    {
        let end = 24 + 16 * self.fields.count;
        put(out, 0, &self.header());
        self.part.put_part(out);
        clear(out, end);
        end as u16
    }

    // The same where there is room for it.
    pub(crate) fn put_if_room(self, out: &mut [u8]) -> Result<u16, Refusal>
        ensures { Filled out.old out.new result
            (and_then (room_answer (length out.old) self.fields) (λ _. Ok (frame_length self.fields.count)))
            ((header_bytes self.fields ++ P.bytes self.part) ++ replicate (length out.old - frame_length self.fields.count) 0) }
    {
        check_room(out.len(), &self.fields)?;
        Ok(self.put(out))
    }
}
