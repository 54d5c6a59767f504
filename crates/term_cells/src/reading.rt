//! A text that is read byte by byte: what is left of it, on a stack whose room is taken once.

ghost use Rattle.std.specs.Prelude.{◌≡◌, ◌≤◌, ◌+◌, ◌<◌, [], ◌∷◌, ◌++◌, ◌-◌, ◌^◌, length, IfNone, OnSome, IfOk};
ghost use Rattle.std.specs.Option.{option_to_list};
ghost use Rattle.std.specs.Fmt.{signed_decimal};
ghost use Rattle.term_cells.specs.Pending.{pending};

use itoa::Buffer;
use math_terms::NoMemory;
use std::alloc::Global;
use std::marker::Model;

/// The term or the list of parts at a place, of whose text the pieces from a stage on are to be read, in parentheses or not.
#[derive(Clone, Copy, Debug)]
pub(crate) struct Frame {
    pub place: u32,
    pub wrapped: bool,
    pub stage: u8,
}

impl Frame {
    /// The same at its next piece.
    pub(crate) fn after(self) -> Frame
        requires { self.stage < 10 }
        ensures { result ≡ record self { stage = self.stage + 1 } }
    {
        Frame {
            place: self.place,
            wrapped: self.wrapped,
            stage: self.stage + 1,
        }
    }
}

/// The piece of a text that is being read.
#[derive(Clone, Copy, Debug)]
enum Bytes {
    Mark(&'static [u8]),
    Number(i64),
}

/// Frames, the top one first, how many there is room for, and the bytes that come before them.
#[derive(Debug, Drop)]
pub(crate) struct Reading {
    frames: Vec<Frame>,
    bytes: Bytes,
    offset: usize,
}

impl Model for Reading {
    ghost use Rattle.std.specs.Prelude.{List, ℕ, reverse, vec_capacity};
    ghost use Rattle.term_cells.specs.declared.reading.Frame.{Frame};

    ghost Value = { List Frame × ℕ × List ℕ };

    ghost use Rattle.term_cells.specs.Pending.{pending};

    ghost view = { λ r. (reverse r.frames.items, vec_capacity r.frames, pending r.bytes r.offset) };
}

impl Reading {
    /// Nothing to read, with room for so many frames.
    pub(crate) fn new(alloc: Global, room: usize) -> Result<Reading, NoMemory>
        ensures { IfOk result (λ r. r ≡ ([], room, [])) }
    {
        Ok(Reading {
            frames: Vec::with_capacity(alloc, room)?,
            bytes: Bytes::Mark(b""),
            offset: 0,
        })
    }

    /// Nothing is left to read.
    pub(crate) fn clear(&mut self)
        ensures { self.new ≡ ([], self.old.1, []) }
    {
        self.frames.clear();
        self.bytes = Bytes::Mark(b"");
        self.offset = 0;
    }

    /// One more frame on top, where there is room.
    pub(crate) fn push(&mut self, frame: Frame)
        ensures same { self.new.1 ≡ self.old.1 }
        ensures pending { self.new.2 ≡ self.old.2 }
        ensures pushed { length self.old.0 < self.old.1 → self.new.0 ≡ frame ∷ self.old.0 }
        ensures full { self.old.1 ≤ length self.old.0 → self.new.0 ≡ self.old.0 }
    {
        if self.frames.len() < self.frames.capacity() {
            self.frames.push_reserved(frame);
        }
    }

    /// The top frame, which is taken off.
    pub(crate) fn pop(&mut self) -> Option<Frame>
        ensures frames { self.old.0 ≡ option_to_list result ++ self.new.0 }
        ensures end { IfNone result (self.old.0 ≡ []) }
        ensures same { self.new.1 ≡ self.old.1 }
        ensures pending { self.new.2 ≡ self.old.2 }
    {
        self.frames.pop()
    }

    /// The next of the bytes that come before the frames.
    pub(crate) fn take_byte(&mut self) -> Option<u8>
        ensures bytes { self.old.2 ≡ option_to_list result ++ self.new.2 }
        ensures end { IfNone result (self.old.2 ≡ []) }
        ensures frames { self.new.0 ≡ self.old.0 }
        ensures same { self.new.1 ≡ self.old.1 }
    {
        let byte = byte_at(self.bytes, self.offset)?;
        self.offset += 1;
        Some(byte)
    }

    /// These bytes come before the frames, and no others.
    pub(crate) fn say(&mut self, mark: &'static [u8])
        ensures { self.new ≡ (self.old.0, self.old.1, mark.now) }
    {
        self.bytes = Bytes::Mark(mark);
        self.offset = 0;
    }

    /// The digits of a number come before the frames.
    pub(crate) fn say_number(&mut self, number: i64)
        ensures digits { self.new ≡ (self.old.0, self.old.1, signed_decimal number) }
        ensures short { length self.new.2 ≤ 40 }
    {
        self.bytes = Bytes::Number(number);
        self.offset = 0;
    }
}

/// A byte of a piece, by its place from 0.
fn byte_at(bytes: Bytes, offset: usize) -> Option<u8>
    ensures byte { pending bytes offset ≡ option_to_list result ++ pending bytes (offset + 1) }
    ensures within { OnSome result (offset < 2 ^ 64 - 1) }
    ensures end { IfNone result (pending bytes offset ≡ []) }
{
    match bytes {
        Bytes::Mark(mark) => mark.get(offset).copied(),
        Bytes::Number(number) => {
            let mut buffer = Buffer::new();
            buffer.format(number).as_bytes().get(offset).copied()
        }
    }
}
