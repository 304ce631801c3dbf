//! Bytes on their way to a target.

ghost use Rattle.std.specs.Prelude.{◌≡◌, ◌+◌, ◌<◌, ◌≤◌, ◌++◌, ◌==◌, ◌&&◌, nat_lt, [], length, min, take, ◌-◌, ◌^◌};
ghost use Rattle.std.specs.Int.{w32, to_be_bytes};
ghost use Rattle.cqlp_note.specs.Outputs.{written};
ghost use Rattle.cqlp_note.specs.Streams.{counted};
ghost use Rattle.cqlp_encode.specs.Encoding.{Continued};
ghost use Rattle.cqlp_encode.specs.Progress.{Flushes, Keeps, PassesOn, Puts, begun, with_length};

use cqlp_note::{Target, offer};
use std::marker::Model;

/// How many bytes wait at most before they are passed on.
const ROOM: usize = 512;

/// Gathers small pieces, so that a target gets them in few calls, and counts what it took: but for two, the calls have 256 bytes each on
/// average. After the target failed once nothing more is passed on.
#[derive(Drop)]
pub struct Staged<'a, W: Target> {
    target: &'a mut W,
    buffer: [u8; ROOM],
    len: usize,
    /// How many bytes the target took, or had from before.
    taken: u64,
    /// How many of the bytes to come the target has from before.
    skip: u64,
    failed: bool,
}

impl<'a, W: Target> Model for Staged<'a, W> {
    ghost use Rattle.std.specs.Prelude.{◌≡◌, ◌≤◌, length, take};
    ghost use Rattle.cqlp_note.specs.Outputs.{written};
    ghost use Rattle.cqlp_encode.specs.Progress.{Progress};

    ghost Value = { Progress };

    ghost view = { λ s. record {
      output = written W.Target s.target.now;
      calls = W.writes s.target.now;
      waiting = take s.len s.buffer;
      taken = s.taken;
      skip = s.skip;
      failed = s.failed;
      lender = s.target.ghost_name;
    } };

    ghost invariant = { λ s. (s.len ≤ 512) × (length s.buffer ≡ 512) };
}

impl<'a, W: Target> Staged<'a, W> {
    /// With nothing that waits. The target has the first of the bytes to come, this many, from before.
    pub fn new(target: &'a mut W, skip: u64) -> Self
        ensures { result ≡ begun (record { output = written W.Target target.old; skip = skip; calls = W.writes target.old }) target.entry.ghost_name }
    {
        Staged {
            target,
            buffer: [0; ROOM],
            len: 0,
            taken: 0,
            skip,
            failed: false,
        }
    }

    /// How many bytes the target took or had from before, 2^64 - 1 where there are more.
    pub fn taken(&self) -> u64
        ensures { result ≡ self.now.taken }
    {
        self.taken
    }

    /// The target, which did not get what waits.
    pub fn into_inner(self) -> &'a mut W
        ensures lender { result.ghost_name ≡ self.entry.lender }
        ensures output { written W.Target result.now ≡ self.entry.output }
        ensures calls { W.writes result.now ≡ self.entry.calls }
    {
        let Staged {
            target,
            buffer: _,
            len: _,
            taken: _,
            skip: _,
            failed: _,
        } = self;
        target
    }

    /// Takes bytes.
    #[inline(always)]
    pub fn put(&mut self, bytes: &[u8])
        ensures { Puts self.old bytes.now self.new }
    {
        if self.len + bytes.len() > ROOM {
            self.put_after_flush(bytes);
        } else {
            self.keep(bytes);
        }
    }

    /// Takes at most 256 bytes. Where the compiler knows how many, it asks once whether there is room.
    #[inline(always)]
    pub fn put_few(&mut self, bytes: &[u8])
        requires { length bytes.now ≤ 256 }
        ensures { Puts self.old bytes.now self.new }
    {
        if self.len > ROOM - bytes.len() {
            self.put_after_flush(bytes);
        } else {
            self.keep(bytes);
        }
    }

    /// Takes a content after its length of four bytes, and asks once whether there is room for both.
    #[inline(always)]
    pub fn put_content(&mut self, content: &[u8])
        ensures { Puts self.old (to_be_bytes w32 (length content.now) ++ content.now) self.new }
    {
        if self.len + content.len() > ROOM - 4 {
            self.put_count32(content.len());
            self.put(content);
        } else {
            let bytes = content.len().to_be_bytes();
            self.keep(&bytes[4..]);
            self.keep(content);
        }
    }

    /// How many bytes wait.
    #[inline(always)]
    pub fn waiting(&self) -> usize
        ensures { result ≡ length self.now.waiting }
    {
        self.len
    }

    /// Takes at most 256 bytes where there is room for them without passing anything on, and answers whether there is.
    #[inline(always)]
    pub fn keep_few(&mut self, bytes: &[u8]) -> bool
        requires { length bytes.now ≤ 256 }
        ensures { Keeps self.old result bytes.now self.new }
    {
        if self.len > ROOM - bytes.len() {
            return false;
        }
        self.keep(bytes);
        true
    }

    /// The same of any bytes.
    #[inline(always)]
    pub fn keep_many(&mut self, bytes: &[u8]) -> bool
        ensures { Keeps self.old result bytes.now self.new }
    {
        if self.len + bytes.len() > ROOM {
            return false;
        }
        self.keep(bytes);
        true
    }

    /// Writes the length of what waits from `start + 4` on into the four bytes before it.
    #[inline(always)]
    pub fn write_length(&mut self, start: usize)
        requires { start + 4 ≤ length self.old.waiting }
        ensures { self.new ≡ record self.old { waiting = with_length start self.old.waiting } }
    {
        let len = (self.len - start - 4).to_be_bytes();
        self.buffer[start..start + 4].copy_from_slice(&len[4..]);
    }

    /// Lets go of what waits after the first `len` bytes.
    #[inline(always)]
    pub fn cut(&mut self, len: usize)
        requires { len ≤ length self.old.waiting }
        ensures { self.new ≡ record self.old { waiting = take len self.old.waiting } }
    {
        self.len = len;
    }

    /// Takes bytes that there is no room for, once all that waits is passed on.
    fn put_after_flush(&mut self, bytes: &[u8])
        requires { 512 < length self.old.waiting + length bytes.now }
        ensures { Puts self.old bytes.now self.new }
    {
        self.flush();
        if bytes.len() > ROOM {
            self.pass_on(bytes);
        } else {
            self.keep(bytes);
        }
    }

    /// Passes on all that waits.
    pub fn flush(&mut self)
        ensures { Flushes self.old self.new }
    {
        let len = self.len;
        self.len = 0;
        if !self.failed {
            let count = offer_after(self.target, self.skip, &self.buffer[..len]);
            self.skip = self.skip.saturating_sub(count as u64);
            self.taken = self.taken.saturating_add(count as u64);
            self.failed = count < len;
        }
    }

    /// Passes on more bytes than may wait, where nothing waits.
    fn pass_on(&mut self, bytes: &[u8])
        requires none { self.old.waiting ≡ [] }
        requires many { 512 < length bytes.now }
        ensures { PassesOn self.old bytes.now self.new }
    {
        if !self.failed {
            let count = offer_after(self.target, self.skip, bytes);
            self.skip = self.skip.saturating_sub(count as u64);
            self.taken = self.taken.saturating_add(count as u64);
            self.failed = count < bytes.len();
        }
    }

    /// Takes bytes that there is room for.
    #[inline(always)]
    fn keep(&mut self, bytes: &[u8])
        requires { length self.old.waiting + length bytes.now ≤ 512 }
        ensures { self.new ≡ record self.old { waiting = self.old.waiting ++ bytes.now } }
    {
        let end = self.len + bytes.len();
        self.buffer[self.len..end].copy_from_slice(bytes);
        self.len = end;
    }
}

/// Passes bytes on, but for the first of them, this many, until the target fails, and answers how many of them it took or had from before. One call
/// takes all that there are to pass on, or none does.
#[inline(always)]
pub fn offer_after<W: Target>(target: &mut W, skip: u64, bytes: &[u8]) -> usize
    ensures continued { Continued skip (written W.Target target.old) bytes.now result (written W.Target target.new) }
    ensures writes { W.writes target.new ≡ counted (nat_lt skip (length bytes.now) && (result == length bytes.now)) (W.writes target.old) }
{
    let from = (bytes.len() as u64).min(skip) as usize;
    from + offer(target, &bytes[from..])
}
