// Gregorian dates from 1900 to 2199: whether a date exists, the number of its day, and ages in days and in completed years.
#![tactic(auto)]

ghost use Rattle.std.specs.Prelude.{◌≡◌, true, ◌≤◌};
ghost use Rattle.std.proofs.Math.IntN.{sub_ℕ};
ghost use Rattle.model.specs.Calendar.{leap, month_days, exists as date_exists, unknown_date, years_days, day_number, anniversary_in, age_in_days, age_in_years};
ghost use Rattle.model.specs.Windows.{bad_date};
ghost use Rattle.calendar.specs.Answers.{date_of, shown};

// Dates are in order by the year, then the month, then the day.
#[derive(Clone, Copy, PartialEq, Eq, PartialOrd, Ord)]
pub struct Date {
    pub year: u32,
    pub month: u32,
    pub day: u32,
}

const FIRST_YEAR: u32 = 1900;

const LAST_YEAR: u32 = 2199;

// How many days a month has, by its number, in a common year; and how many stand before it. A table for both: to sum the months takes longer than all else of
// a date.
const DAYS: [u32; 13] = [0, 31, 28, 31, 30, 31, 30, 31, 31, 30, 31, 30, 31];

const DAYS_BEFORE: [u32; 13] = [0, 0, 31, 59, 90, 120, 151, 181, 212, 243, 273, 304, 334];

fn is_leap(year: u32) -> bool
    ensures { result ≡ leap year }
{
    year % 4 == 0 && (year % 100 != 0 || year % 400 == 0)
}

// How many days a month has: none what is no month.
fn month_days(year: u32, month: u32) -> u32
    ensures { result ≡ month_days year month }
{
    if month == 2 && is_leap(year) {
        return 29;
    }
    match DAYS.get(month as usize) {
        Some(days) => *days,
        None => 0,
    }
}

// The days of the years before a year, by how many years those are. Of 1900 to 2199 each fourth year is a leap year but 1900 and 2100.
fn years_days(years: u32) -> u32
    requires { years ≤ 299 }
    ensures { result ≡ years_days years }
{
    if years == 0 {
        return 0;
    }
    let days = years * 365 + (years - 1) / 4;
    if years > 200 {
        return days - 1;
    }
    days
}

impl Date {
    fn exists(self) -> bool
        ensures { result ≡ date_exists (date_of self) }
    {
        FIRST_YEAR <= self.year
            && self.year <= LAST_YEAR
            && 1 <= self.day
            && self.day <= month_days(self.year, self.month)
    }

    // Year, month and day all 0: so document 02 has a date that is unknown, in place of none.
    pub fn is_unknown(self) -> bool
        ensures { result ≡ unknown_date (date_of self) }
    {
        self.year == 0 && self.month == 0 && self.day == 0
    }

    // Whether a date neither exists nor is unknown.
    pub fn is_bad(self) -> bool
        ensures { result ≡ bad_date (date_of self) }
    {
        !(self.is_unknown() || self.exists())
    }

    // Days since 1900-01-01.
    fn day_number(self) -> u32
        requires { date_exists (date_of self) ≡ true }
        ensures { result ≡ day_number (date_of self) }
    {
        let month = self.month as usize;
        let number = years_days(self.year - FIRST_YEAR) + DAYS_BEFORE[month] + (self.day - 1);
        if month > 2 && is_leap(self.year) {
            return number + 1;
        }
        number
    }

    // That of 29 February falls on 1 March in common years.
    fn anniversary_in(self, year: u32) -> Date
        ensures { date_of result ≡ anniversary_in (date_of self) year }
    {
        if self.month == 2 && self.day == 29 && !is_leap(year) {
            return Date {
                year,
                month: 3,
                day: 1,
            };
        }
        Date { year, ..self }
    }

    // The age of a reading of this date, if that isn't after today.
    pub fn age_in_days(self, today: Date) -> Option<u32>
        requires { (date_exists (date_of self) ≡ true) × (date_exists (date_of today) ≡ true) }
        ensures { result ≡ shown (age_in_days (date_of self) (date_of today)) }
    {
        age_between(self.day_number(), today.day_number())
    }

    // The greatest number of years whose anniversary isn't after today, if there is one.
    pub fn age_in_years(self, today: Date) -> Option<u32>
        requires { date_exists (date_of today) ≡ true }
        ensures { result ≡ shown (age_in_years (date_of self) (date_of today)) }
    {
        if today < self.anniversary_in(today.year) {
            return age_between(self.year, today.year - 1);
        }
        age_between(self.year, today.year)
    }
}

// From an earlier number to a later one. An age below 0 lies in no window: how far below isn't kept.
fn age_between(from: u32, to: u32) -> Option<u32>
    ensures { result ≡ shown (sub_ℕ to from) }
{
    to.checked_sub(from)
}
