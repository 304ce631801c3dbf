//! Patterns, and whether a text has a match.

ghost use Rattle.std.specs.Prelude.{◌≡◌, ◌<◌, ◌++◌, slice_index_or};
ghost use Rattle.cqlp_pattern.specs.Matching.{end, followers, is_done, is_found, is_match, joined, step};

use crate::bad_pattern::BadPattern;
use crate::builder::Builder;
use crate::fragment::Fragment;
use crate::parser::Parser;
use crate::token::read_token;

/// How many positions a pattern has at most: one for each character, two for one that may be other than ASCII.
pub const POSITIONS: usize = 128;

/// The symbols of a text: its bytes, and two numbers that are no bytes for its begin and its end.
pub(crate) const SYMBOLS: usize = 258;

pub(crate) const BEGIN: usize = 256;

pub(crate) const END: usize = 257;

/// A regular expression, as an automaton whose states are sets of positions.
#[derive(Clone, Copy)]
pub struct Pattern {
    /// By symbol a bit for each position that accepts it.
    accepts: [u128; SYMBOLS],
    /// By position a bit for each that may be next.
    follow: [u128; POSITIONS],
    /// A bit for each position that may be the first one of a match.
    first: u128,
    /// A bit for each that may be the last one.
    last: u128,
    /// Whether the empty text is a match.
    is_empty: bool,
}

impl Pattern {
    /// The pattern that a text is.
    pub fn new(text: &str) -> Result<Pattern, BadPattern> {
        let bytes = text.as_bytes();
        let is_caseless = bytes.starts_with(b"(?i)");
        let mut parser = Parser::new(is_caseless);
        let mut next: usize = if is_caseless { 4 } else { 0 };
        for at in 0..bytes.len() {
            if at < next {
                continue;
            }
            let read = read_token(bytes, at)?;
            parser.take(read.token, at, between(bytes, at, read.next))?;
            next = read.next;
        }
        parser.finish()
    }

    pub(crate) fn built(builder: &Builder, whole: Fragment) -> Pattern {
        Pattern {
            accepts: builder.accepts,
            follow: builder.follow,
            first: whole.first,
            last: whole.last,
            is_empty: whole.is_empty,
        }
    }

    /// Whether a text has a match, or the front of a text whose end is not known. It looks at most at each position for each byte.
    pub fn is_match(&self, text: &[u8], is_whole: bool) -> bool
        ensures { result ≡ is_match self.now text.now is_whole }
    {
        self.is_empty || self.has_match(text, is_whole)
    }

    fn has_match(&self, text: &[u8], is_whole: bool) -> bool
        ensures { result ≡ is_found self.now (step self.now 0 256) (text.now ++ end is_whole) }
    {
        let mut active = self.step(0, BEGIN);
        for at in 0..text.len() {
            if self.is_done(active) {
                return true;
            }
            active = self.step(active, usize::from(text[at]));
        }
        self.is_done_at_end(active, is_whole)
    }

    /// Whether a match ends behind all bytes, or at the end if it is known.
    fn is_done_at_end(&self, active: u128, is_whole: bool) -> bool
        ensures { result ≡ is_found self.now active (end is_whole) }
    {
        if is_whole {
            self.is_done(active) || self.is_done(self.step(active, END))
        } else {
            self.is_done(active)
        }
    }

    /// Whether a match ends where these positions are active.
    fn is_done(&self, active: u128) -> bool
        ensures { result ≡ is_done self.now active }
    {
        active & self.last != 0
    }

    /// The positions that accept a symbol, of those that may follow and of the first ones.
    fn step(&self, active: u128, symbol: usize) -> u128
        requires { symbol < 258 }
        ensures { result ≡ step self.now active symbol }
    {
        (self.followers(active) | self.first) & self.accepts[symbol]
    }

    /// The positions that may follow one of these.
    #[tactic(auto, using(crate::proofs::Followers::followers_at_first, crate::proofs::Followers::followers_of_none))]
    fn followers(&self, active: u128) -> u128
        ensures { result ≡ followers self.now.follow active 128 }
    {
        if active == 0 {
            return 0;
        }
        let mut next = 0;
        for position in 0..POSITIONS {
            next = self.joined(next, active, position);
        }
        next
    }

    /// Those of `next`, and where the position is active those that may follow it.
    fn joined(&self, next: u128, active: u128, position: usize) -> u128
        requires { position < 128 }
        ensures { result ≡ joined next active position (slice_index_or self.now.follow position 0) }
    {
        if active >> position & 1 == 1 {
            next | self.follow[position]
        } else {
            next
        }
    }
}

/// The bytes between two places, as far as there are any.
fn between(text: &[u8], from: usize, to: usize) -> &[u8] {
    let front = &text[..to.min(text.len())];
    &front[from.min(front.len())..]
}
