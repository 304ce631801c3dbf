//! Laws of what bytes say: one list of events with one verdict, which goes on where more bytes come.

ghost use Rattle.cqlp_laws.specs.Contents.{EndsWhatIsRead};
ghost use Rattle.cqlp_laws.specs.Due.{DueIsTheEndOfItsBytes, HasNoMoreEventsThanDue, IsDueThere, UsesWhatIsDue};
ghost use Rattle.cqlp_laws.specs.Reading.{GoesOn, IsSaid, IsSaidOnce, LiesInItsStep};
ghost use Rattle.cqlp_laws.specs.Reading.{HandsOutNoMoreEventsThanBytes, HasNoMoreEventsThanBytes};

/// Of any bytes there is one list of events, and one verdict.
pub fn said_once()
    ensures some { IsSaid }
    ensures once { IsSaidOnce }
{}

/// Whatever bytes follow, the events of a stream go on, and a refusal stays. So they do not depend on how the stream is
/// cut into pieces.
pub fn goes_on()
    ensures { GoesOn }
{}

/// A stream has no more events than bytes, whatever lengths and counts it has and whatever tables are given, and a
/// decoder hands out no more, also before it refuses.
pub fn no_more_events_than_bytes()
    ensures stream { HasNoMoreEventsThanBytes }
    ensures decoder { HandsOutNoMoreEventsThanBytes }
{}

/// The events of a stream are never more than the bytes that decide the last of them: the first of the stream that say it, where
/// fewer do not. They are those up to where the reading is behind it, and end with the event's own, which begin at its offset.
/// A decoder has used just those where it hands out the event.
pub fn no_more_events_than_due()
    ensures due { HasNoMoreEventsThanDue }
    ensures conforms { IsDueThere }
    ensures ends { DueIsTheEndOfItsBytes }
    ensures decoder { UsesWhatIsDue }
{}

/// The content of an event lies in the bytes of the step that says it: so where no byte of a step came before, a content can
/// be lent from the input.
pub fn content_lies_in_its_step()
    ensures { LiesInItsStep }
{}

/// Where an event with a content is read, the content is the last of the bytes read so far. It begins after the bytes of
/// its length, whose number follows from the event: so where it lies is known from the event's offset.
pub fn contents_end_what_is_read()
    ensures { EndsWhatIsRead }
{}
