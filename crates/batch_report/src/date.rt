//! The date of an expiry.
ghost use Rattle.std.specs.Prelude.{◌≡◌, ◌<◌, ◌≤◌, ◌+◌, true, length};
ghost use Rattle.gs1_element.specs.Dates.{two_digits, days_in, is_expiry};
ghost use Rattle.batch_report.specs.Texts.{day_meant, date_of};

/// The number that two digits at a place stand for.
fn two_digits_at(text: &[u8; 6], at: usize) -> u32
    requires { at + 1 < 6 }
    ensures { result ≡ two_digits text.now at }
{
    u32::from(text[at].saturating_sub(b'0')) * 10 + u32::from(text[at + 1].saturating_sub(b'0'))
}

/// The days of a month in a year of 2000 to 2099.
fn days_of(year: u32, month: u32) -> u32
    ensures { result ≡ days_in year month }
{
    match month {
        2 => { if year % 4 == 0 { 29 } else { 28 } }
        4 | 6 | 9 | 11 => 30,
        _ => 31,
    }
}

/// The day of the month that an expiry stands for.
#[tactic(auto, unfolding(crate::specs::Texts::day_meant))]
fn day_of(expiry: &[u8; 6]) -> u32
    ensures { result ≡ day_meant expiry.now }
{
    let day = two_digits_at(expiry, 4);
    if day == 0 {
        return days_of(two_digits_at(expiry, 0), two_digits_at(expiry, 2));
    }
    day
}

/// The date `20YY-MM-DD` of an expiry, the day 00 being the last of its month.
#[tactic(auto, unfolding(crate::specs::Texts::date_of), using(crate::proofs::SmallDays::small_day))]
pub(crate) fn date_text(expiry: &[u8; 6]) -> [u8; 10]
    requires { is_expiry expiry.now ≡ true }
    ensures { result ≡ date_of expiry.now }
{
    let day = day_of(expiry);
    [
        b'2',
        b'0',
        expiry[0],
        expiry[1],
        b'-',
        expiry[2],
        expiry[3],
        b'-',
        b'0' + (day / 10) as u8,
        b'0' + (day % 10) as u8,
    ]
}
