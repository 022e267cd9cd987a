//! Expiry dates.
ghost use Rattle.std.specs.Prelude.{◌≡◌, ◌<◌, ◌≤◌, ◌+◌, ◌↔◌, IsTrue, IfSome, pos, length, true};
ghost use Rattle.gs1_element.specs.Dates.{is_expiry, two_digits as digits_value};
ghost use Rattle.jiff.specs.Words.{IsDate, days_in_month};
ghost use Rattle.site_files.specs.Dates.{are_digits, day_to_print, expiry_of, is_date, is_day, is_month, last_day_of};

use jiff::civil::{Date, date};

/// Whether the calendar has the day, in the year 2000 + `year`.
fn has_day(year: u8, month: u8, day: u8) -> bool
    requires year_in { year < 100 }
    requires month_in { month < 100 }
    requires day_in { day < 100 }
    ensures test { result ≡ is_day year month day }
    ensures jiffs { IsTrue result ↔ IsDate (pos (2000 + year)) (pos month) (pos day) }
{
    Date::new(2000 + year as i16, month as i8, day as i8).is_ok()
}

/// Whether there are two digits at a place.
fn two_digits(text: &[u8], at: usize) -> bool
    requires { at + 1 < length text.now }
    ensures { result ≡ are_digits text.now at }
{
    text[at].is_ascii_digit() && text[at + 1].is_ascii_digit()
}

/// The number of the two digits at a place.
fn number(text: &[u8], at: usize) -> u8
    requires room { at + 1 < length text.now }
    requires digits { are_digits text.now at ≡ true }
    ensures value { result ≡ digits_value text.now at }
    ensures small { result < 100 }
{
    (text[at] - b'0') * 10 + (text[at + 1] - b'0')
}

/// Whether the text is a date `20YY-MM-DD`.
fn is_date_text(text: &[u8]) -> bool
    requires { length text.now ≡ 10 }
    ensures { result ≡ is_date text.now }
{
    if text[0] != b'2' || text[1] != b'0' || text[4] != b'-' || text[7] != b'-' {
        return false;
    }
    if !two_digits(text, 2) || !two_digits(text, 5) || !two_digits(text, 8) {
        return false;
    }
    has_day(number(text, 2), number(text, 5), number(text, 8))
}

/// Whether the text is a month `20YY-MM`.
fn is_month_text(text: &[u8]) -> bool
    requires { length text.now ≡ 7 }
    ensures { result ≡ is_month text.now }
{
    if text[0] != b'2' || text[1] != b'0' || text[4] != b'-' {
        return false;
    }
    if !two_digits(text, 2) || !two_digits(text, 5) {
        return false;
    }
    has_day(number(text, 2), number(text, 5), 1)
}

/// The six digits YYMMDD of a date `YYYY-MM-DD`, or of a month `YYYY-MM`, whose day is then 00, in a
/// year of 2000 to 2099. What is read is an expiry as barcodes have it.
#[tactic(auto, unfolding(crate::specs::Dates::expiry_of))]
pub fn read_expiry(text: &[u8]) -> Option<[u8; 6]>
    ensures is { result ≡ expiry_of text.now }
    ensures proper { IfSome result (λ expiry. is_expiry expiry ≡ true) }
{
    if text.len() == 10 {
        if is_date_text(text) {
            return Some([text[2], text[3], text[5], text[6], text[8], text[9]]);
        }
        return None;
    }
    if text.len() != 7 {
        return None;
    }
    if is_month_text(text) {
        return Some([text[2], text[3], text[5], text[6], b'0', b'0']);
    }
    None
}

/// The number that two bytes stand for, as digits.
fn digits_at(text: &[u8; 6], at: usize) -> u32
    requires { at + 1 < 6 }
    ensures value { result ≡ digits_value text.now at }
    ensures small { result < 2300 }
{
    u32::from(text[at].saturating_sub(b'0')) * 10 + u32::from(text[at + 1].saturating_sub(b'0'))
}

/// The last day that the calendar has in a month of the year 2000 + `year`.
fn days_of(year: u32, month: u32) -> u32
    requires year_in { year < 2300 }
    requires from { 1 ≤ month }
    requires to { month ≤ 12 }
    ensures value { result ≡ days_in_month (pos (2000 + year)) month }
    ensures small { result < 100 }
{
    date(2000 + year as i16, month as i8, 1).days_in_month() as u32
}

/// The day that is printed of an expiry.
fn day_printed(expiry: &[u8; 6]) -> u32
    requires { is_expiry expiry.now ≡ true }
    ensures value { result ≡ day_to_print expiry.now }
    ensures small { result < 100 }
{
    let day = digits_at(expiry, 4);
    if day != 0 {
        return day;
    }
    days_of(digits_at(expiry, 0), digits_at(expiry, 2))
}

/// The date `YYYY-MM-DD` of an expiry YYMMDD, where day 00 is the last day of its month.
#[tactic(auto, unfolding(crate::specs::Dates::last_day_of))]
pub fn last_day(expiry: &[u8; 6]) -> [u8; 10]
    requires { is_expiry expiry.now ≡ true }
    ensures { result ≡ last_day_of expiry.now }
{
    let day = day_printed(expiry) as u8;
    [
        b'2',
        b'0',
        expiry[0],
        expiry[1],
        b'-',
        expiry[2],
        expiry[3],
        b'-',
        b'0' + day / 10,
        b'0' + day % 10,
    ]
}
