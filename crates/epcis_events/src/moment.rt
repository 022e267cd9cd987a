//! The text of a moment.
ghost use Rattle.std.specs.Prelude.{◌≡◌, ◌<◌, ◌≤◌, ◌+◌, ◌/◌, ◌%◌, pos, length};
ghost use Rattle.jiff.specs.Words.{epoch_day, IsBetween};
ghost use Rattle.epcis_events.specs.Moment.{day_after, moment_text};

use jiff::ToSpan;
use jiff::civil::{Date, date};

/// A day of the calendar.
struct CivilDay {
    year: u32,
    month: u32,
    day: u32,
}

/// The date so many days after 1970-01-01.
fn civil_date(days: i64) -> Date
    requires { IsBetween (pos 0) (pos 2_932_896) days }
    ensures { epoch_day result ≡ days }
{
    date(1970, 1, 1) + days.days()
}

/// The day so many days after 1970-01-01.
fn civil_day(days: u32) -> CivilDay
    requires { days ≤ 2_932_896 }
    ensures year { result.year ≡ (day_after days).year }
    ensures month { result.month ≡ (day_after days).month }
    ensures day { result.day ≡ (day_after days).day }
    ensures year_small { result.year ≤ 9999 }
    ensures month_small { result.month ≤ 12 }
    ensures day_small { result.day ≤ 31 }
{
    let date = civil_date(days as i64);
    CivilDay {
        year: date.year().unsigned_abs() as u32,
        month: date.month().unsigned_abs() as u32,
        day: date.day().unsigned_abs() as u32,
    }
}

/// The first of two digits.
fn tens(n: u32) -> u8
    requires { n < 100 }
    ensures { result ≡ 48 + n / 10 }
{
    b'0' + (n / 10) as u8
}

/// The second of two digits.
fn ones(n: u32) -> u8
    ensures { result ≡ 48 + n % 10 }
{
    b'0' + (n % 10) as u8
}

/// `YYYY-MM-DDThh:mm:ss.mmmZ`, of the milliseconds since 1970.
#[tactic(auto, unfolding(crate::specs::Moment::moment_text))]
pub(crate) fn event_time(stamp: u64) -> [u8; 24]
    requires { stamp ≤ 253_402_300_799_999 }
    ensures { result ≡ moment_text stamp }
{
    let CivilDay { year, month, day } = civil_day((stamp / 86_400_000) as u32);
    let rest = (stamp % 86_400_000) as u32;
    let hour = rest / 3_600_000;
    let minute = rest / 60_000 % 60;
    let second = rest / 1_000 % 60;
    [
        tens(year / 100),
        ones(year / 100),
        tens(year % 100),
        ones(year % 100),
        b'-',
        tens(month),
        ones(month),
        b'-',
        tens(day),
        ones(day),
        b'T',
        tens(hour),
        ones(hour),
        b':',
        tens(minute),
        ones(minute),
        b':',
        tens(second),
        ones(second),
        b'.',
        b'0' + (rest % 1_000 / 100) as u8,
        tens(rest % 100),
        ones(rest % 100),
        b'Z',
    ]
}
