//! The frames of one direction, by their headers.

ghost use Rattle.std.specs.Prelude.{◌≡◌, ◌≤◌, ◌<◌, Bool, false, if◌then◌else◌, length, take, IfSome, None, Some};
ghost use Rattle.cqlp_observer.specs.Directions.{holed, passed_in, shortened};

use crate::header_front::{HeaderFront, first_nine, read_head};
use crate::message::{Extent, Frame};
use crate::opening::{Opening, opening_with};
use crate::stage_record::StageRecord;
use cqlp_note::Header;

/// Where a direction is.
#[derive(Drop)]
pub(crate) enum Stage {
    /// Where the next frame begins is not known.
    Lost,
    /// Between two frames.
    Between,
    /// In a header that began there and then, of which these bytes came.
    Header {
        front: HeaderFront,
        at: u64,
        begun: Option<u64>,
    },
    /// In the body of this frame, of which so many bytes are still to come.
    Body {
        frame: Frame,
        left: u32,
    },
}

/// What bytes of a direction are.
#[derive(Clone, Copy, Debug, PartialEq, Eq, Drop)]
pub enum Heard {
    /// The last bytes of this header, whose frame begins.
    Begins(Header),
    /// Bytes of the body of the frame that began last.
    Body,
    /// That frame has ended: all its bytes came, but for those that lie in a gap where its extent is `Holed`.
    Ends(Frame),
    /// Bytes that are no header of this direction, or lie where no frame is known to begin.
    Stray,
    /// All bytes were used, and nothing more is reported of them.
    More,
}

/// What the first so many bytes of a piece are.
#[derive(Clone, Copy, Debug, PartialEq, Eq, Drop)]
pub struct HeardStep {
    /// How many bytes of the piece these are; the others are to be given to the next call.
    pub used: usize,
    /// What they are: of a header, of a body, or of no frame.
    pub heard: Heard,
}

/// The frames of one direction of a connection, by their headers, out of pieces of any size and gaps.
///
/// Where the beginning was not seen, where nine bytes are no header of the direction, and after a gap past which no frame is known to begin,
/// the direction begins anew at the next segment that begins with a header of its direction. A gap within a body cuts its frame,
/// and the next one begins where that one ends. A header may say that its frame is compressed. Takes no memory.
#[derive(Drop)]
pub struct Heads {
    /// How many bytes, and bytes of gaps, came.
    position: u64,
    stage: StageRecord,
    responses: bool,
}

impl Heads {
    ghost use Rattle.std.specs.Prelude.{ℕ, Option, true};
    ghost use Rattle.cqlp_observer.specs.Heads.{head_within};
    ghost use Rattle.cqlp_observer.specs.Openings.{opening_in};
    ghost use Rattle.cqlp_observer.specs.Directions.{IsWholeHead, after_end, after_gap, anew, begun, closing, counted, ended_in, filled, heard};
    ghost use Rattle.cqlp_observer.specs.Directions.{hears, is_over, is_within, left_in, passed_frame, passed_whole, sought, stepping};

    /// A direction of which nothing came: that of the responses, or that of the requests. Its first byte begins a frame, where `from_start`.
    #[must_use]
    pub fn new(responses: bool, from_start: bool) -> Heads
        ensures { result ≡ anew responses from_start }
    {
        let stage = if from_start {
            Stage::Between
        } else {
            Stage::Lost
        };
        Heads {
            responses,
            position: 0,
            stage: StageRecord::new(stage),
        }
    }

    /// What the next bytes are that came at this time. `begins` says whether the first of them begins a segment. To be called again and again
    /// with the bytes that were not used, until it says `More`.
    #[inline(always)]
    pub fn take(&mut self, piece: &[u8], time: Option<u64>, begins: bool) -> HeardStep
        ensures reported { stepping result self.new ≡ heard time begins piece.now self.old }
        ensures within { result.used ≤ length piece.now }
    {
        match self.stage.left() {
            Some(0) => self.end_frame(),
            Some(left) => self.pass(left, piece, time),
            None => self.take_head(piece, time, begins),
        }
    }

    /// The frame ends of whose body nothing is left.
    #[inline(always)]
    fn end_frame(&mut self) -> HeardStep
        ensures reported { stepping result self.new ≡ ended_in self.old.stage self.old }
        ensures within { result.used ≡ 0 }
    {
        match self.stage.take() {
            Stage::Body { frame, left: _ } => {
                self.stage = StageRecord::new(Stage::Between);
                HeardStep {
                    used: 0,
                    heard: Heard::Ends(frame),
                }
            }
            stage => {
                self.stage = StageRecord::new(stage);
                HeardStep {
                    used: 0,
                    heard: Heard::More,
                }
            }
        }
    }

    /// What the next bytes are where no body passes.
    #[inline(always)]
    fn take_head(&mut self, piece: &[u8], time: Option<u64>, begins: bool) -> HeardStep
        requires { left_in self.old.stage ≡ None }
        ensures reported { stepping result self.new ≡ heard time begins piece.now self.old }
        ensures within { result.used ≤ length piece.now }
    {
        if piece.is_empty() {
            return HeardStep {
                used: 0,
                heard: Heard::More,
            };
        }
        match self.stage.take() {
            Stage::Lost => self.seek(piece, time, begins),
            Stage::Between => {
                let at = self.position;
                self.fill(HeaderFront::new(), at, time, piece, time)
            }
            Stage::Header { front, at, begun } => self.fill(front, at, begun, piece, time),
            Stage::Body { frame, left } => {
                self.stage = StageRecord::new(Stage::Body { frame, left });
                HeardStep {
                    used: 0,
                    heard: Heard::More,
                }
            }
        }
    }

    /// Takes the bytes of the body that passes, and says how many these are, if more of it are to come and some are here.
    #[inline(always)]
    pub(crate) fn pass_body(&mut self, piece: &[u8], time: Option<u64>) -> Option<usize>
        ensures passed { IfSome result (λ used. (begins : Bool) →
            stepping (record { used = used; heard = Heard.Body }) self.new ≡ heard time begins piece.now self.old) }
        ensures within { IfSome result (λ used. used ≤ length piece.now) }
        ensures none { result ≡ None → self.new ≡ self.old }
    {
        match self.stage.left() {
            Some(left) if left > 0 && !piece.is_empty() => Some(self.pass_some(left, piece, time)),
            _ => None,
        }
    }

    /// Takes bytes that are all stray, and says whether these are: where no frame is known to begin, and they do not begin a segment with a header.
    #[inline(always)]
    pub(crate) fn pass_stray(&mut self, piece: &[u8], begins: bool) -> bool
        ensures passed { result ≡ true → (time : Option ℕ) →
            stepping (record { used = length piece.now; heard = Heard.Stray }) self.new ≡ heard time begins piece.now self.old }
        ensures none { result ≡ false → self.new ≡ self.old }
    {
        if piece.is_empty()
            || !self.stage.is_lost()
            || self.head_at_begin(piece, begins).is_some()
        {
            return false;
        }
        self.count(piece.len() as u64);
        true
    }

    /// The header of the frame that lies whole in these bytes from the first on, if it is between two frames and one does.
    #[inline(always)]
    pub(crate) fn whole_head(&self, piece: &[u8]) -> Option<Header>
        ensures { IfSome result (λ h. IsWholeHead h piece.now self.now) }
    {
        if piece.len() < 9 || !self.stage.is_between() {
            return None;
        }
        match read_head(first_nine(piece), self.responses) {
            Some(header) => {
                if header.length as usize <= piece.len() - 9 {
                    Some(header)
                } else {
                    None
                }
            }
            None => None,
        }
    }

    /// The frame passes that lies whole in the next bytes, which came at this time.
    #[inline(always)]
    pub(crate) fn pass_frame(&mut self, header: Header, time: Option<u64>) -> Frame
        ensures { closing (Some result) self.new ≡ passed_frame header time self.old }
    {
        let at = self.position;
        self.count(9);
        self.count(header.length as u64);
        Frame {
            header,
            at,
            begun: time,
            ended: time,
            extent: Extent::Whole,
        }
    }

    /// Whether a frame ends of which nothing more comes.
    #[inline(always)]
    pub(crate) fn is_over(&self) -> bool
        ensures { result ≡ is_over self.now.stage }
    {
        matches!(self.stage.left(), Some(0))
    }

    /// What these bytes are that come next, if none came before.
    #[inline(always)]
    pub(crate) fn opening(&self, piece: &[u8]) -> Opening
        ensures { result ≡ opening_in piece.now self.now }
    {
        if self.position > 0 {
            return Opening::Frames;
        }
        opening_with(self.responses, self.stage.is_between(), piece)
    }

    /// So many bytes did not come, which passed at this time, where that is known. The frame that ends there, or past which no frame is known to begin,
    /// is reported, as `Holed`, unless all its bytes came before.
    pub fn gap(&mut self, length: u64, time: Option<u64>) -> Option<Frame>
        ensures { closing result self.new ≡ after_gap length time self.old }
    {
        match self.stage.left() {
            Some(left) if length < left as u64 => {
                self.count(length);
                self.stage.hole(length as u32);
                None
            }
            None if self.stage.is_lost() => {
                self.count(length);
                None
            }
            _ => self.gap_past(length, time),
        }
    }

    /// So many bytes did not come, that do not lie within a body before its last one.
    #[inline(never)]
    fn gap_past(&mut self, length: u64, time: Option<u64>) -> Option<Frame>
        requires { is_within length self.old.stage ≡ false }
        ensures { closing result self.new ≡ after_gap length time self.old }
    {
        self.count(length);
        match self.stage.take() {
            Stage::Body { frame, left } => {
                let is_end = length == left as u64;
                let stage = if is_end { Stage::Between } else { Stage::Lost };
                self.stage = StageRecord::new(stage);
                Some(passed_in(frame, left, time))
            }
            stage => {
                let stage = if length > 0 { Stage::Lost } else { stage };
                self.stage = StageRecord::new(stage);
                None
            }
        }
    }

    /// No more bytes come. The frame of which some did is reported, as `Short`, unless all its bytes came.
    pub fn end(&mut self) -> Option<Frame>
        ensures { closing result self.new ≡ after_end self.old }
    {
        match self.stage.take() {
            Stage::Body { frame, left } => Some(shortened(frame, left)),
            _ => None,
        }
    }

    /// All that is left of the body came, the last of it at this time: its frame ends.
    #[inline(always)]
    pub(crate) fn pass_whole(&mut self, time: Option<u64>) -> Option<Frame>
        ensures { closing result self.new ≡ passed_whole time self.old }
    {
        match self.stage.take() {
            Stage::Body { frame, left } => {
                self.count(left as u64);
                self.stage = StageRecord::new(Stage::Between);
                Some(if left == 0 {
                    frame
                } else {
                    Frame {
                        ended: time,
                        ..frame
                    }
                })
            }
            stage => {
                self.stage = StageRecord::new(stage);
                None
            }
        }
    }

    /// Looks for a frame where a segment begins.
    #[inline(never)]
    fn seek(&mut self, piece: &[u8], time: Option<u64>, begins: bool) -> HeardStep
        ensures reported { stepping result self.new ≡ sought time begins piece.now self.old }
        ensures within { result.used ≤ length piece.now }
    {
        match self.head_at_begin(piece, begins) {
            Some(header) => self.begin(9, header, self.position, time, time),
            None => self.stray(piece.len()),
        }
    }

    /// The header that a segment begins with.
    #[inline(always)]
    fn head_at_begin(&self, piece: &[u8], begins: bool) -> Option<Header>
        ensures { result ≡ (if begins then head_within self.now.responses (take 9 piece.now) else None) }
    {
        if begins && piece.len() >= 9 {
            read_head(first_nine(piece), self.responses)
        } else {
            None
        }
    }

    /// So many bytes are stray.
    #[inline(never)]
    fn stray(&mut self, used: usize) -> HeardStep
        ensures reported { stepping result self.new ≡ hears used Heard.Stray Stage.Lost self.old }
        ensures within { result.used ≡ used }
    {
        self.count(used as u64);
        self.stage = StageRecord::new(Stage::Lost);
        HeardStep {
            used,
            heard: Heard::Stray,
        }
    }

    /// Takes bytes of a header.
    #[inline(always)]
    fn fill(
        &mut self,
        front: HeaderFront,
        at: u64,
        begun: Option<u64>,
        piece: &[u8],
        time: Option<u64>,
    ) -> HeardStep
        ensures reported { stepping result self.new ≡ filled front at begun time piece.now self.old }
        ensures within { result.used ≤ length piece.now }
    {
        let more = front.with(piece);
        let used = more.len() - front.len();
        if more.len() < 9 {
            self.count(used as u64);
            self.stage = StageRecord::new(Stage::Header {
                front: more,
                at,
                begun,
            });
            return HeardStep {
                used,
                heard: Heard::More,
            };
        }
        match more.head(self.responses) {
            Some(header) => self.begin(used, header, at, begun, time),
            None => self.stray(used),
        }
    }

    /// A frame begins, whose header ends after so many bytes.
    #[inline(always)]
    fn begin(
        &mut self,
        used: usize,
        header: Header,
        at: u64,
        first: Option<u64>,
        last: Option<u64>,
    ) -> HeardStep
        ensures reported { stepping result self.new ≡ begun used header at first last self.old }
        ensures within { result.used ≡ used }
    {
        self.count(used as u64);
        let frame = Frame {
            header,
            at,
            begun: first,
            ended: last,
            extent: Extent::Whole,
        };
        self.stage = StageRecord::new(Stage::Body {
            frame,
            left: header.length,
        });
        HeardStep {
            used,
            heard: Heard::Begins(header),
        }
    }

    /// Takes bytes of a body, of which so many are still to come.
    #[inline(always)]
    fn pass(&mut self, left: u32, piece: &[u8], time: Option<u64>) -> HeardStep
        requires is { left_in self.old.stage ≡ Some left }
        requires some { 0 < left }
        ensures reported { (begins : Bool) → stepping result self.new ≡ heard time begins piece.now self.old }
        ensures within { result.used ≤ length piece.now }
    {
        if piece.is_empty() {
            return HeardStep {
                used: 0,
                heard: Heard::More,
            };
        }
        HeardStep {
            used: self.pass_some(left, piece, time),
            heard: Heard::Body,
        }
    }

    /// Takes some bytes of a body, of which so many are still to come.
    #[inline(always)]
    fn pass_some(&mut self, left: u32, piece: &[u8], time: Option<u64>) -> usize
        requires is { left_in self.old.stage ≡ Some left }
        requires some { (0 < left) × (0 < length piece.now) }
        ensures passed { (begins : Bool) → stepping (record { used = result; heard = Heard.Body }) self.new ≡ heard time begins piece.now self.old }
        ensures within { result ≤ length piece.now }
    {
        let used = piece.len().min(left as usize);
        self.count(used as u64);
        self.stage.pass(used as u32, time);
        used
    }

    #[inline(always)]
    fn count(&mut self, more: u64)
        ensures { self.new ≡ counted more self.old }
    {
        self.position = self.position.saturating_add(more);
    }
}

/// The frame, of which some bytes did not come.
fn holed(frame: Frame) -> Frame
    ensures { result ≡ holed frame }
{
    Frame {
        extent: Extent::Holed,
        ..frame
    }
}

/// The frame, of which the last bytes, if so many were left, passed at this time and did not come.
fn passed_in(frame: Frame, left: u32, time: Option<u64>) -> Frame
    ensures { result ≡ passed_in frame left time }
{
    if left == 0 {
        frame
    } else {
        Frame {
            ended: time.or(frame.ended),
            ..holed(frame)
        }
    }
}

/// The frame, of which no more bytes come, if so many were left.
fn shortened(frame: Frame, left: u32) -> Frame
    ensures { result ≡ shortened frame left }
{
    if left == 0 {
        frame
    } else {
        Frame {
            extent: Extent::Short,
            ..frame
        }
    }
}
