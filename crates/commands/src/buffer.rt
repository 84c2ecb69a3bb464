// The place where a line is kept while its bytes come in: bytes one at a time to lines, and a line to its call.
ghost use Rattle.std.specs.Prelude.{◌≡◌, ◌≤◌, ℕ, [], length, Some, None, MatchOption, ◌==◌};
ghost use Rattle.arrayvec.specs.ArrayVec.{ArrayVec as Bytes};
ghost use Rattle.text.specs.Bytes.{line_end};

use crate::command::parse;
use arrayvec::ArrayVec;
use calls::call::Call;

/// How many bytes of a line are kept: more than a well written line has.
pub const MAX_LINE: usize = 64;

/// The bytes of a line so far, or none of a line that is longer than there are places.
#[derive(Drop)]
pub struct LineBuffer {
    bytes: Option<ArrayVec<u8, MAX_LINE>>,
    ghost short: { (v : Bytes ℕ) → bytes ≡ Some v → length v.items ≤ 64 },
}

impl LineBuffer {
    ghost use Rattle.commands.specs.Buffers.{held, longer, after_byte, has_byte, held_call, Grows, ReadsAny};

    /// A line of no bytes.
    pub fn new() -> LineBuffer
        ensures { held result ≡ Some [] }
    {
        LineBuffer {
            bytes: Some(ArrayVec::new()),
        }
    }

    /// Forgets the line.
    pub fn clear(&mut self)
        ensures { held self.new ≡ Some [] }
    {
        match &mut self.bytes {
            Some(line) => line.clear(),
            None => *self = LineBuffer::new(),
        }
    }

    /// Whether the line has a byte.
    pub fn has_byte(&self) -> bool
        ensures { result ≡ has_byte (held self.now) }
    {
        match &self.bytes {
            Some(line) => !line.is_empty(),
            None => true,
        }
    }

    /// One byte more.
    fn push(&mut self, byte: u8)
        ensures { held self.new ≡ longer (held self.old) byte }
    {
        if let Some(line) = &mut self.bytes {
            if line.try_push(byte).is_err() {
                self.bytes = None;
            }
        }
    }

    /// Takes the next byte of the input, and says whether it ends the line.
    pub fn take_byte(&mut self, byte: u8) -> bool
        ensures ended { result ≡ (byte == line_end) }
        ensures line { held self.new ≡ after_byte (held self.old) byte }
        ensures grows { Grows self.old byte self.new }
    {
        if byte == b'\n' {
            return true;
        }
        self.push(byte);
        false
    }

    /// The line, if it is not too long.
    fn line(&self) -> Option<&[u8]>
        ensures { MatchOption result (held self.now ≡ None) (λ x. held self.now ≡ Some x.now) }
    {
        Some(self.bytes.as_ref()?.as_slice())
    }

    /// The call that the line writes, if it is not too long.
    fn read(&self) -> Option<Call>
        ensures { result ≡ held_call (held self.now) }
    {
        parse(self.line()?)
    }

    /// The call that the line writes, or none if it is ill written.
    pub fn call(&self) -> Option<Call>
        ensures answer { result ≡ held_call (held self.now) }
        ensures law { ReadsAny self.now result }
    {
        self.read()
    }
}
