//! Names of statements.

ghost use Rattle.std.specs.Prelude.{◌≡◌, ◌&&◌, ◌<◌, nat_le, length};
ghost use Rattle.cqlp_capture_summary.specs.Names.{hash_of, is_same, name_of};

use std::hash::{DefaultHasher, Hasher};
use std::marker::Model;

/// The first bytes of a statement's name.
#[derive(Drop)]
pub(crate) struct Name {
    /// A hash of the bytes, which is compared first.
    hash: u64,
    len: usize,
    bytes: [u8; MOST],
    is_whole: bool,
}

/// How many bytes of a name are kept at most.
pub(crate) const MOST: usize = 256;

impl Model for Name {
    ghost use Rattle.std.specs.Prelude.{◌≡◌, ◌≤◌, take};
    ghost use Rattle.cqlp_capture_summary.specs.Names.{Name, hash_of, name};

    ghost Value = { Name };

    ghost view = { λ n. name (take n.len n.bytes) n.is_whole };

    ghost invariant = { λ n. (n.len ≤ 256) × (n.hash ≡ hash_of (take n.len n.bytes)) };
}

impl Name {
    /// The name of which these are the bytes, or the first ones.
    pub(crate) fn new(name: &[u8], is_whole: bool) -> Self
        ensures { result ≡ name_of name.now is_whole }
    {
        let front = &name[..name.len().min(MOST)];
        let mut bytes = [0; MOST];
        bytes[..front.len()].copy_from_slice(front);
        Name {
            hash: hash_of(front),
            len: front.len(),
            bytes,
            is_whole: is_kept_whole(name, is_whole),
        }
    }

    /// The same name once more.
    pub(crate) fn copy(&self) -> Self
        ensures { result ≡ self.now }
    {
        Name {
            hash: self.hash,
            len: self.len,
            bytes: self.bytes,
            is_whole: self.is_whole,
        }
    }

    pub(crate) fn as_slice(&self) -> &[u8]
        ensures { result.now ≡ self.now.bytes }
    {
        &self.bytes[..self.len]
    }

    pub(crate) fn is_whole(&self) -> bool
        ensures { result ≡ self.now.is_whole }
    {
        self.is_whole
    }

    /// A number below 1,024 by its hash.
    pub(crate) fn slot(&self) -> usize
        ensures { result < 1024 }
    {
        (self.hash % 1024) as usize
    }

    /// Whether it is the other.
    pub(crate) fn is(&self, other: &Name) -> bool
        ensures { result ≡ is_same other.now self.now }
    {
        self.hash == other.hash
            && self.is_whole == other.is_whole
            && self.as_slice() == other.as_slice()
    }
}

/// Whether all of a name is kept, of which these are the bytes or the first ones.
fn is_kept_whole(name: &[u8], is_whole: bool) -> bool
    ensures { result ≡ is_whole && nat_le (length name.now) 256 }
{
    is_whole && name.len() <= MOST
}

/// A hash of bytes.
fn hash_of(bytes: &[u8]) -> u64
    ensures { result ≡ hash_of bytes.now }
{
    let mut hasher = DefaultHasher::new();
    Hasher::write(&mut hasher, bytes);
    Hasher::finish(&hasher)
}
