// The steps of reading: a byte, a number, a part, a count.
ghost use Rattle.std.specs.Prelude.{◌≡◌, ◌+◌, ◌≤◌, ◌++◌, length, drop, IfOk, OnOk, ◌==◌};
ghost use Rattle.change.specs.Cursor.{lent, left, is_next};
ghost use Rattle.change.specs.Reading.{answered, plain, byte_of, number_of, part_of, how_many};

use crate::cursor::Cursor;
use crate::fault::Fault;

impl<'a> Cursor<'a> {
    pub fn new(bytes: &'a [u8]) -> Self
        ensures all { left result ≡ bytes.now }
        ensures lends { lent result ≡ bytes.now }
    {
        Cursor { bytes, at: 0 }
    }

    // All the lent bytes, read or not.
    pub fn bytes(&self) -> &'a [u8]
        ensures { result.now ≡ lent self.now }
    {
        self.bytes
    }

    // Has all been read.
    pub fn is_done(&self) -> bool
        ensures { result ≡ (length (left self.now) == 0) }
    {
        self.at == self.bytes.len()
    }

    // How many bytes have been read.
    pub fn position(&self) -> usize
        ensures { result + length (left self.now) ≡ length (lent self.now) }
    {
        self.at
    }

    // The bytes read since so many had been read.
    pub fn since(&self, start: usize) -> &'a [u8]
        requires { start + length (left self.now) ≤ length (lent self.now) }
        ensures { result.now ++ left self.now ≡ drop start (lent self.now) }
    {
        &self.bytes[start..self.at]
    }

    // Is this the next byte, which stays to be read.
    pub fn is_next(&self, byte: u8) -> bool
        ensures { result ≡ is_next byte (left self.now) }
    {
        let at = self.at;
        let bytes = self.bytes;
        if at >= bytes.len() {
            return false;
        }
        bytes[at] == byte
    }

    pub fn byte(&mut self) -> Result<u8, Fault>
        ensures reads { answered plain result (left self.new) ≡ byte_of (left self.old) }
        ensures same { lent self.new ≡ lent self.old }
    {
        let at = self.at;
        let bytes = self.bytes;
        if at >= bytes.len() {
            return Err(Fault::CutShort);
        }
        self.at = at + 1;
        Ok(bytes[at])
    }

    // Four bytes, the high one first.
    pub fn number(&mut self) -> Result<u32, Fault>
        ensures reads { answered plain result (left self.new) ≡ number_of (left self.old) }
        ensures same { lent self.new ≡ lent self.old }
    {
        let at = self.at;
        let bytes = self.bytes;
        if bytes.len() - at < 4 {
            return Err(Fault::CutShort);
        }
        self.at = at + 4;
        Ok(u32::from_be_bytes([bytes[at], bytes[at + 1], bytes[at + 2], bytes[at + 3]]))
    }

    // The next `len` bytes, as a part of the lent ones.
    pub fn part(&mut self, len: usize) -> Result<&'a [u8], Fault>
        ensures reads { answered (λ s. s.now) result (left self.new) ≡ part_of len (left self.old) }
        ensures inside { OnOk result (self.old.at + len ≤ length (lent self.old)) }
        ensures same { lent self.new ≡ lent self.old }
    {
        let at = self.at;
        let bytes = self.bytes;
        if bytes.len() - at < len {
            return Err(Fault::CutShort);
        }
        self.at = at + len;
        Ok(&bytes[at..at + len])
    }

    // A byte that says how many there are, at most `limit`.
    pub fn how_many(&mut self, limit: usize) -> Result<usize, Fault>
        ensures reads { answered plain result (left self.new) ≡ how_many limit (left self.old) }
        ensures bound { IfOk result (λ n. n ≤ limit) }
        ensures same { lent self.new ≡ lent self.old }
    {
        let n = usize::from(self.byte()?);
        if n > limit {
            return Err(Fault::Malformed);
        }
        Ok(n)
    }
}
