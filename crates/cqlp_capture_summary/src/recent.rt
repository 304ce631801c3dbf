//! Fingerprints of names that were seen last.

ghost use Rattle.std.specs.Prelude.{◌≡◌};
ghost use Rattle.cqlp_capture_summary.specs.Named.{fingerprint_name, fingerprint_of_name};
ghost use Rattle.cqlp_capture_summary.specs.Names.{is_same};

use crate::fingerprint::Fingerprint;
use crate::name::{MOST, Name};
use std::marker::Model;

/// A name and its fingerprint, which is not read again while the name comes again.
#[derive(Drop)]
pub(crate) struct Recent {
    name: Name,
    fingerprint: Name,
}

impl Model for Recent {
    ghost use Rattle.std.specs.Prelude.{◌≡◌};
    ghost use Rattle.cqlp_capture_summary.specs.Named.{fingerprint_of_name};
    ghost use Rattle.cqlp_capture_summary.specs.Names.{Name};

    ghost Value = { Name };

    ghost view = { λ r. r.name };

    ghost invariant = { λ r. r.fingerprint ≡ fingerprint_of_name r.name };
}

impl Recent {
    pub(crate) fn new(name: Name) -> Self
        ensures { result ≡ name }
    {
        let fingerprint = fingerprint(name.as_slice(), name.is_whole());
        Recent { name, fingerprint }
    }

    fn is_of(&self, name: &Name) -> bool
        ensures { result ≡ is_same name.now self.now }
    {
        self.name.is(name)
    }

    fn fingerprint(&self) -> Name
        ensures { result ≡ fingerprint_of_name self.now }
    {
        self.fingerprint.copy()
    }
}

fn fingerprint(name: &[u8], is_whole: bool) -> Name
    ensures { result ≡ fingerprint_name name.now is_whole }
{
    let fingerprint = Fingerprint::new(name, is_whole);
    Name::new(fingerprint.as_slice(), fingerprint.is_whole())
}

/// The fingerprint of a name of which these are the bytes, or the first ones. One that is kept whole is not read again if it was the last one at its place.
pub(crate) fn fingerprint_in(recent: &mut [Recent], name: &[u8], is_whole: bool) -> Name
    ensures { result ≡ fingerprint_name name.now is_whole }
{
    if name.len() > MOST {
        return fingerprint(name, is_whole);
    }
    let kept = Name::new(name, is_whole);
    match recent.get_mut(kept.slot() / 4) {
        Some(known) => fingerprint_at(known, kept),
        None => fingerprint(name, is_whole),
    }
}

fn fingerprint_at(known: &mut Recent, name: Name) -> Name
    ensures { result ≡ fingerprint_of_name name }
{
    if !known.is_of(&name) {
        *known = Recent::new(name);
    }
    known.fingerprint()
}
