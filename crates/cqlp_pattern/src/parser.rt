//! The parts of a pattern, put together as its tokens come.

use crate::bad_pattern::{BadPattern, PatternFault};
use crate::builder::Builder;
use crate::class::Class;
use crate::fragment::Fragment;
use crate::pattern::{BEGIN, END, POSITIONS, Pattern};
use crate::token::Token;

/// How many groups may be open.
const DEPTH: usize = 16;

/// What is known of a group so far, or of the whole pattern.
#[derive(Clone, Copy)]
struct Level {
    /// What is before the last `|`, if there is one.
    choices: Option<Fragment>,
    /// What is behind it, but for the last part, which may be repeated.
    sequence: Fragment,
    last: Option<Fragment>,
    /// The first position of the last part.
    start: usize,
    /// Whether the last part is a repetition.
    is_repeated: bool,
    /// Where the group opens, and its first position.
    opened_at: usize,
    opened: usize,
}

impl Level {
    fn new(opened_at: usize, opened: usize) -> Level {
        Level {
            choices: None,
            sequence: Fragment::EMPTY,
            last: None,
            start: opened,
            is_repeated: false,
            opened_at,
            opened,
        }
    }
}

#[derive(Drop)]
pub(crate) struct Parser {
    builder: Builder,
    is_caseless: bool,
    level: Level,
    outer: [Level; DEPTH],
    depth: usize,
    /// Where the last `^` or `$` is.
    anchor_at: usize,
}

impl Parser {
    pub(crate) fn new(is_caseless: bool) -> Parser {
        let level = Level::new(0, 0);
        Parser {
            builder: Builder::new(),
            is_caseless,
            level,
            outer: [level; DEPTH],
            depth: 0,
            anchor_at: 0,
        }
    }

    /// The token at this place, which has these bytes.
    pub(crate) fn take(&mut self, token: Token, at: usize, bytes: &[u8]) -> Result<(), BadPattern> {
        self.taken(token, at, bytes)
            .or_else(|fault| Err(BadPattern::new(fault, at)))
    }

    fn taken(&mut self, token: Token, at: usize, bytes: &[u8]) -> Result<(), PatternFault> {
        match token {
            Token::Open => self.open(at),
            Token::Close => self.close(),
            Token::Or => {
                self.choose();
                Ok(())
            }
            Token::Repeat { least, most } => self.repeat(least, most),
            Token::One(_) | Token::Other(_) | Token::Wide | Token::Begin | Token::End => {
                self.end_last();
                let start = self.builder.count;
                let part = self.part(token, at, bytes)?;
                self.begin_last(part, start);
                Ok(())
            }
        }
    }

    /// What a token means by itself.
    fn part(&mut self, token: Token, at: usize, bytes: &[u8]) -> Result<Fragment, PatternFault> {
        match token {
            Token::One(class) => {
                let class = self.folded(class);
                self.builder.one(class)
            }
            Token::Other(class) => {
                let class = self.folded(class).complement();
                self.builder.one(class)
            }
            Token::Begin => {
                self.anchor_at = at;
                self.builder.begin()
            }
            Token::End => {
                self.anchor_at = at;
                self.builder.end()
            }
            _ => self.builder.bytes(bytes),
        }
    }

    /// A class, with letters of the other case too if the case does not count.
    fn folded(&self, class: Class) -> Class {
        if self.is_caseless {
            class.caseless()
        } else {
            class
        }
    }

    /// The last part is a part of the sequence, and is not repeated any more.
    fn end_last(&mut self) {
        if let Some(last) = self.level.last {
            self.level.sequence = self.builder.sequence(self.level.sequence, last);
        }
        self.level.last = None;
        self.level.is_repeated = false;
    }

    fn begin_last(&mut self, part: Fragment, start: usize) {
        self.level.last = Some(part);
        self.level.start = start;
    }

    /// All that the group has so far is one choice.
    fn choose(&mut self) {
        self.end_last();
        let sequence = self.level.sequence;
        self.level.choices = match self.level.choices {
            Some(choices) => Some(choices.or(sequence)),
            None => Some(sequence),
        };
        self.level.sequence = Fragment::EMPTY;
    }

    /// All that the group has.
    fn whole(&mut self) -> Fragment {
        self.choose();
        match self.level.choices {
            Some(choices) => choices,
            None => Fragment::EMPTY,
        }
    }

    fn open(&mut self, at: usize) -> Result<(), PatternFault> {
        self.end_last();
        if DEPTH <= self.depth {
            return Err(PatternFault::Deep);
        }
        self.outer[self.depth] = self.level;
        self.depth += 1;
        self.level = Level::new(at, self.builder.count);
        Ok(())
    }

    fn close(&mut self) -> Result<(), PatternFault> {
        let depth = self.depth.checked_sub(1).ok_or(PatternFault::NoGroup)?;
        let around = self.outer.get(depth).copied().ok_or(PatternFault::NoGroup)?;
        let group = self.whole();
        let start = self.level.opened;
        self.depth = depth;
        self.level = around;
        self.begin_last(group, start);
        Ok(())
    }

    fn repeat(&mut self, least: u8, most: Option<u8>) -> Result<(), PatternFault> {
        match self.level.last {
            Some(part) if !self.level.is_repeated => {
                let part = self.builder.repeated(part, self.level.start, least, most)?;
                self.level.last = Some(part);
                self.level.is_repeated = true;
                Ok(())
            }
            _ => Err(PatternFault::NothingToRepeat),
        }
    }

    /// The pattern, if each group is closed, and no anchor has to be where another one is.
    pub(crate) fn finish(mut self) -> Result<Pattern, BadPattern> {
        if 0 < self.depth {
            let at = self.level.opened_at;
            return Err(BadPattern::new(PatternFault::OpenGroup, at));
        }
        let whole = self.whole();
        if has_anchors_together(&self.builder) {
            return Err(BadPattern::new(PatternFault::Anchors, self.anchor_at));
        }
        Ok(Pattern::built(&self.builder, whole))
    }
}

/// Whether a `^` may come behind a `^`, or either behind a `$`.
fn has_anchors_together(builder: &Builder) -> bool {
    let begins = builder.accepts[BEGIN];
    let ends = builder.accepts[END];
    for position in 0..POSITIONS {
        let follow = builder.follow[position];
        if begins >> position & 1 == 1 && follow & begins != 0 {
            return true;
        }
        if ends >> position & 1 == 1 && follow & (begins | ends) != 0 {
            return true;
        }
    }
    false
}
