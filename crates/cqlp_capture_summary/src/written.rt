//! What is written of a fingerprint so far.

ghost use Rattle.std.specs.Prelude.{◌≡◌, ◌+◌, ◌-◌, ◌≤◌, ◌<◌, length};

use crate::class::is_opening;
use std::marker::Model;

/// The greatest number of bytes of a fingerprint.
const MOST: usize = 256;

/// The bytes that are written, and whether all were.
#[derive(Drop)]
pub(crate) struct Written {
    len: usize,
    bytes: [u8; MOST],
    is_whole: bool,
}

impl Model for Written {
    ghost use Rattle.std.specs.Prelude.{◌≡◌, ◌≤◌, length, take};
    ghost use Rattle.cqlp_capture_summary.specs.Names.{Name, name};

    ghost Value = { Name };

    ghost view = { λ w. name (take w.len w.bytes) w.is_whole };

    ghost invariant = { λ w. (w.len ≤ 256) × (length w.bytes ≡ 256) };
}

impl Written {
    ghost use Rattle.std.specs.Prelude.{[]};
    ghost use Rattle.cqlp_capture_summary.specs.declared.class.Class.TheVariants as class;
    ghost use Rattle.cqlp_capture_summary.specs.Names.{name};
    ghost use Rattle.cqlp_capture_summary.specs.Fingerprints.{back, before_separator, behind_space, cut, has_sign, is_list_at, joined, listed, separator_at};
    ghost use Rattle.cqlp_capture_summary.specs.Fingerprints.{spaced, text_at, text_at_comment, trimmed, with_literal, without_sign, written};

    /// Nothing is written.
    pub(crate) fn new(is_whole: bool) -> Self
        ensures { result ≡ name [] is_whole }
    {
        Written {
            len: 0,
            bytes: [0; MOST],
            is_whole,
        }
    }

    pub(crate) fn as_slice(&self) -> &[u8]
        ensures bytes { result.now ≡ self.now.bytes }
        ensures few { length result.now ≤ 256 }
    {
        &self.bytes[..self.len]
    }

    pub(crate) fn is_whole(&self) -> bool
        ensures { result ≡ self.now.is_whole }
    {
        self.is_whole
    }

    /// Writes a byte, if there is room for it.
    pub(crate) fn push(&mut self, byte: u8)
        ensures { self.new ≡ written byte self.old }
    {
        if self.len < MOST {
            self.bytes[self.len] = byte;
            self.len += 1;
        } else {
            self.is_whole = false;
        }
    }

    /// Takes the last bytes back.
    pub(crate) fn cut(&mut self, count: usize)
        ensures { self.new ≡ cut count self.old }
    {
        self.len = self.len.saturating_sub(count);
    }

    /// The byte that is so many from the end, the last at 1, or 0.
    pub(crate) fn back(&self, count: usize) -> u8
        requires { 1 ≤ count }
        ensures { result ≡ back count self.now }
    {
        if count <= self.len {
            self.bytes[self.len - count]
        } else {
            0
        }
    }

    /// Writes one space, behind something else.
    pub(crate) fn space(&mut self)
        ensures { self.new ≡ spaced self.old }
    {
        let last = self.back(1);
        if last != b' ' && last != 0 {
            self.push(b' ');
        }
    }

    /// Takes a space at the end back.
    pub(crate) fn trim(&mut self)
        ensures { self.new ≡ trimmed self.old }
    {
        if self.back(1) == b' ' {
            self.cut(1);
        }
    }

    /// The place before a space, or the same place.
    fn behind_space(&self, count: usize) -> usize
        requires some { 1 ≤ count }
        requires few { count ≤ 8 }
        ensures at { result ≡ behind_space count self.now }
        ensures more { count ≤ result }
        ensures most { result ≤ count + 1 }
    {
        if self.back(count) == b' ' {
            count + 1
        } else {
            count
        }
    }

    fn separator_at(&self) -> usize
        ensures at { result ≡ separator_at self.now }
        ensures some { 1 ≤ result }
        ensures few { result ≤ 2 }
    {
        self.behind_space(1)
    }

    fn before_separator(&self) -> usize
        ensures at { result ≡ before_separator self.now }
        ensures some { 1 ≤ result }
        ensures few { result ≤ 4 }
    {
        self.behind_space(self.separator_at() + 1)
    }

    /// Whether a list of literals ends at a place.
    fn is_list_at(&self, count: usize) -> bool
        requires some { 1 ≤ count }
        requires few { count ≤ 8 }
        ensures { result ≡ is_list_at count self.now }
    {
        self.back(count) == b'+' && self.back(count + 1) == b'?'
    }

    /// Writes a literal, behind others in a list.
    pub(crate) fn literal(&mut self)
        ensures { self.new ≡ with_literal self.old }
    {
        let before = self.before_separator();
        if self.back(before) == b'?' || self.is_list_at(before) {
            self.join(self.back(self.separator_at()));
        } else {
            self.push(b'?');
        }
    }

    /// Writes a literal behind a literal and this byte.
    fn join(&mut self, separator: u8)
        ensures { self.new ≡ joined separator self.old }
    {
        if separator == b',' {
            self.list();
        } else if separator == b':' {
            self.cut(self.before_separator() - 1);
        } else {
            self.push(b'?');
        }
    }

    /// Writes a literal behind a literal and a comma.
    fn list(&mut self)
        ensures { self.new ≡ listed self.old }
    {
        let before = self.before_separator();
        let is_list = self.is_list_at(before);
        self.cut(before - 1);
        if !is_list {
            self.push(b'+');
        }
    }

    /// Whether a sign is at the end that belongs to a number behind it.
    fn has_sign(&self) -> bool
        ensures { result ≡ has_sign self.now }
    {
        let last = self.back(1);
        (last == b'+' || last == b'-') && is_opening(self.back(self.behind_space(2)))
    }

    /// Takes a sign back that belongs to a number behind it.
    pub(crate) fn drop_sign(&mut self)
        ensures { self.new ≡ without_sign self.old }
    {
        if self.has_sign() {
            self.cut(1);
        }
    }

    /// Writes a dollar sign, or a literal where a text begins behind another one.
    pub(crate) fn push_or_literal(&mut self, byte: u8)
        ensures { self.new ≡ text_at class.Dollar byte self.old }
    {
        if self.back(1) == b'$' {
            self.cut(1);
            self.literal();
        } else {
            self.push(byte);
        }
    }

    /// Writes a byte, or a space where a comment begins with this byte behind that other one.
    pub(crate) fn push_or_space(&mut self, before: u8, byte: u8)
        ensures { self.new ≡ text_at_comment before byte self.old }
    {
        if self.back(1) == before {
            self.cut(1);
            self.space();
        } else {
            self.push(byte);
        }
    }
}
