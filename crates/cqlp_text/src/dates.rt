//! Dates as text.

ghost use Rattle.std.specs.Prelude.{◌≡◌, ◌<◌, pos, ◌-ℤ◌, unsigned_abs};
ghost use Rattle.jiff_core.specs.Date.{epoch_day};

use crate::pen::Pen;
use crate::text_writer::TextWriter;
use cqlp_grammar::SinkFault;
use jiff_core::civil::Date;

/// The number of the first of January 1970 in a cell.
const EPOCH: u32 = 1 << 31;

/// The number of the first of January of the year 0.
const FIRST: u32 = EPOCH - 719_528;

/// How many days the years 0 to 9999 have.
const DAYS: u32 = 3_652_425;

impl<P: Pen> TextWriter<P> {
    ghost use Rattle.std.specs.Prelude.{◌++◌, ◌^◌, codes};
    ghost use Rattle.std.specs.Fmt.{signed_decimal};
    ghost use Rattle.cqlp_text.specs.CellText.{civil_text, date_text};
    ghost use Rattle.cqlp_text.specs.Written.{Writes};

    /// Takes the date of a day: of the years 0 to 9999 as year, month and day, and else as the number
    /// of days from 1970.
    #[inline(never)]
    pub fn put_date(&mut self, number: u32) -> Result<(), SinkFault>
        ensures { Writes self.old (date_text number) result self.new }
    {
        if number < FIRST {
            return self.put_day_number(number);
        }
        let day = number - FIRST;
        if day < DAYS {
            self.put_civil(day)
        } else {
            self.put_day_number(number)
        }
    }

    fn put_day_number(&mut self, number: u32) -> Result<(), SinkFault>
        ensures { Writes self.old (codes "day " ++ signed_decimal (pos number -ℤ pos (2 ^ 31))) result self.new }
    {
        self.put(b"day ")?;
        self.put_signed(i64::from(number) - i64::from(EPOCH))
    }

    /// Takes the date of a day from the first of January of the year 0, up to the year 9999.
    fn put_civil(&mut self, day: u32) -> Result<(), SinkFault>
        requires { day < 3_652_425 }
        ensures { Writes self.old (civil_text day) result self.new }
    {
        let date = date_of(day);
        let year = year_of(&date);
        let month = u64::from(date.month);
        let day = u64::from(date.day);
        self.put_digits(4, year)?;
        self.put(b"-")?;
        self.put_digits(2, month)?;
        self.put(b"-")?;
        self.put_digits(2, day)
    }
}

/// The date of a day from the first of January of the year 0, up to the year 9999.
fn date_of(day: u32) -> Date
    requires { day < 3_652_425 }
    ensures { epoch_day result ≡ pos day -ℤ pos 719_528 }
{
    Date::from_unix_epoch_day(i64::from(day) - 719_528).unwrap()
}

/// The year of a date that is not before the year 0.
fn year_of(date: &Date) -> u64
    ensures { result ≡ unsigned_abs date.now.year }
{
    u64::from(date.year.unsigned_abs())
}
