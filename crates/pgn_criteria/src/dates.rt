//! Days, and dates of which digits are not known.
ghost use Rattle.std.specs.Prelude.{◌≡◌, ◌↔◌, ◌∷◌, ◌≤◌, [], ℕ, IsTrue, MatchOption, codes};
ghost use Rattle.pgn_text.specs.Public.Strings.{IsContents};
ghost use Rattle.pgn_criteria.specs.Public.Dates.{StandsFor, MayWrite, MayBe, IsWithin, IsDate};
ghost use Rattle.pgn_criteria.specs.Public.Dates.{day_number, number_of, StandSurely};
ghost use Rattle.pgn_criteria.specs.Private.DateEnds.{IsLeast, IsGreatest, IsDigitEnd, IsYearEnd};
ghost use Rattle.pgn_criteria.specs.Private.DateEnds.{IsFirstDay, IsLastDay, AreGoodDays};
ghost use Rattle.pgn_criteria.specs.Private.DateEnds.{year_text, date_text};
ghost use Rattle.pgn_criteria.specs.declared.dates.Day.{Day};

use crate::compare::{Comparison, compares};

/// A day by its numbers.
#[derive(Clone, Copy, Debug, PartialEq, Eq)]
pub struct Day {
    pub year: u32,
    pub month: u32,
    pub day: u32,
}

/// The days of a year, of a month or one day: those of the year with such a month and such a day.
#[derive(Clone, Copy, Debug, PartialEq, Eq)]
pub struct Days {
    pub year: u32,
    pub first_month: u32,
    pub last_month: u32,
    pub first_day: u32,
    pub last_day: u32,
}

/// Whether the byte stands for the digit.
fn stands_for(byte: u8, digit: u32) -> bool
    ensures { IsTrue result ↔ StandsFor byte digit }
{
    digit <= 9 && (byte == b'?' || byte as u32 == 48 + digit)
}

/// Whether the two bytes may write the number.
fn may_write(tens: u8, units: u8, number: u32) -> bool
    ensures { IsTrue result ↔ MayWrite 0 (tens ∷ units ∷ []) number }
{
    stands_for(tens, number / 10) && stands_for(units, number % 10)
}

/// The least number from one to another that two bytes may write.
fn least_of(tens: u8, units: u8, first: u32, last: u32) -> Option<u32>
    requires { last ≤ 31 }
    ensures { IsLeast (MayWrite 0 (tens ∷ units ∷ [])) first last result }
{
    let mut number = first;
    while number <= last {
        if may_write(tens, units, number) {
            return Some(number);
        }
        number += 1;
    }
    None
}

/// The greatest number from 1 to another that two bytes may write.
fn greatest_of(tens: u8, units: u8, last: u32) -> Option<u32>
    ensures { IsGreatest (MayWrite 0 (tens ∷ units ∷ [])) 1 last result }
{
    let mut number = last;
    while 1 <= number {
        if may_write(tens, units, number) {
            return Some(number);
        }
        number -= 1;
    }
    None
}

/// The digit for which the byte stands, or for ? this one.
fn digit_of(byte: u8, unknown: u32) -> Option<u32>
    requires { unknown ≤ 9 }
    ensures { MatchOption result ((digit : ℕ) → StandsFor byte digit → ⊥)
        (λ own. IsDigitEnd unknown byte own) }
{
    match byte {
        b'?' => Some(unknown),
        b'0'..=b'9' => Some((byte - b'0') as u32),
        _ => None,
    }
}

/// A date as it is written, YYYY.MM.DD, without its dots.
#[derive(Clone, Copy)]
struct Written {
    thousands: u8,
    hundreds: u8,
    tens: u8,
    units: u8,
    month_tens: u8,
    month_units: u8,
    day_tens: u8,
    day_units: u8,
}

/// How the value is written, if it has the form of a date.
fn written_of(value: &[u8]) -> Option<Written>
    ensures { MatchOption result ((day : Day) → MayBe value.now day → ⊥)
        (λ written. value.now ≡ date_text written) }
{
    match value {
        [a, b, c, d, b'.', e, f, b'.', g, h] => Some(Written {
            thousands: *a,
            hundreds: *b,
            tens: *c,
            units: *d,
            month_tens: *e,
            month_units: *f,
            day_tens: *g,
            day_units: *h,
        }),
        _ => None,
    }
}

/// The year that is written, where each ? is this digit.
fn year_of(written: Written, unknown: u32) -> Option<u32>
    requires { unknown ≤ 9 }
    ensures { IsYearEnd unknown (MayWrite 0 (year_text written)) result }
{
    let thousands = digit_of(written.thousands, unknown)?;
    let hundreds = digit_of(written.hundreds, unknown)?;
    let tens = digit_of(written.tens, unknown)?;
    let units = digit_of(written.units, unknown)?;
    Some(1000 * thousands + 100 * hundreds + 10 * tens + units)
}

/// Whether four bytes may write the year.
fn may_write_year(thousands: u8, hundreds: u8, tens: u8, units: u8, year: u32) -> bool
    ensures { IsTrue result
        ↔ MayWrite 0 (thousands ∷ hundreds ∷ tens ∷ units ∷ []) year }
{
    stands_for(thousands, year / 1000)
        && stands_for(hundreds, year / 100 % 10)
        && stands_for(tens, year / 10 % 10)
        && stands_for(units, year % 10)
}

/// Whether the year that is written may be this one.
fn may_be_year(written: Written, year: u32) -> bool
    ensures { IsTrue result ↔ MayWrite 0 (year_text written) year }
{
    may_write_year(
        written.thousands,
        written.hundreds,
        written.tens,
        written.units,
        year,
    )
}

/// The first day that what is written may be.
fn first_day(written: Written) -> Option<Day>
    ensures { MatchOption result ((day : Day) → MayBe (date_text written) day → ⊥)
        (IsFirstDay (date_text written)) }
{
    let year = year_of(written, 0)?;
    let month = least_of(written.month_tens, written.month_units, 1, 12)?;
    let day = least_of(written.day_tens, written.day_units, 1, 31)?;
    Some(Day { year, month, day })
}

/// The last day that what is written may be.
fn last_day(written: Written) -> Option<Day>
    ensures { MatchOption result ((day : Day) → MayBe (date_text written) day → ⊥)
        (IsLastDay (date_text written)) }
{
    let year = year_of(written, 9)?;
    let month = greatest_of(written.month_tens, written.month_units, 12)?;
    let day = greatest_of(written.day_tens, written.day_units, 31)?;
    Some(Day { year, month, day })
}

/// Whether what is written may be one of the days.
fn may_be_within(written: Written, days: Days) -> bool
    requires { AreGoodDays days }
    ensures { IsTrue result
        ↔ ((day : Day) × MayBe (date_text written) day × IsWithin day days) }
{
    if !may_be_year(written, days.year) {
        return false;
    }
    let tens = written.month_tens;
    let Some(_) = least_of(tens, written.month_units, days.first_month, days.last_month) else {
        return false;
    };
    let tens = written.day_tens;
    let Some(_) = least_of(tens, written.day_units, days.first_day, days.last_day) else {
        return false;
    };
    true
}

/// Whether the day is one of these.
fn is_within(day: Day, days: Days) -> bool
    ensures { IsTrue result ↔ IsWithin day days }
{
    day.year == days.year
        && days.first_month <= day.month
        && day.month <= days.last_month
        && days.first_day <= day.day
        && day.day <= days.last_day
}

/// The number by which days follow one another.
fn day_number(year: u32, month: u32, day: u32) -> u128
    ensures { result ≡ day_number year month day }
{
    10_000 * year as u128 + 100 * month as u128 + day as u128
}

/// The number of a day.
fn number_of(day: Day) -> u128
    ensures { result ≡ number_of day }
{
    day_number(day.year, day.month, day.day)
}

/// Whether both days are among these.
fn are_within(first: Day, last: Day, days: Days) -> bool
    ensures { IsTrue result ↔ (IsWithin first days × IsWithin last days) }
{
    is_within(first, days) && is_within(last, days)
}

/// Whether the comparison holds of each day that what is written may be: these are the first and
/// the last.
fn stands_to_all(
    comparison: Comparison,
    written: Written,
    first: Day,
    last: Day,
    days: Days,
) -> bool
    requires first { IsFirstDay (date_text written) first }
    requires last { IsLastDay (date_text written) last }
    requires good { AreGoodDays days }
    ensures { IsTrue result ↔ StandSurely comparison (date_text written) days }
{
    let from = day_number(days.year, days.first_month, days.first_day);
    let to = day_number(days.year, days.last_month, days.last_day);
    match comparison {
        Comparison::Equal => are_within(first, last, days),
        Comparison::Unequal => !may_be_within(written, days),
        Comparison::Less => compares(Comparison::Less, number_of(last), from),
        Comparison::LessOrEqual => compares(Comparison::LessOrEqual, number_of(last), to),
        Comparison::Greater => compares(Comparison::Greater, number_of(first), to),
        Comparison::GreaterOrEqual => compares(Comparison::GreaterOrEqual, number_of(first), from),
    }
}

/// Whether the value may be some day, and the comparison holds of each day that it may be.
fn stands_surely(comparison: Comparison, value: &[u8], days: Days) -> bool
    requires { AreGoodDays days }
    ensures { IsTrue result ↔ StandSurely comparison value.now days }
{
    let Some(written) = written_of(value) else {
        return false;
    };
    let Some(first) = first_day(written) else {
        return false;
    };
    let Some(last) = last_day(written) else {
        return false;
    };
    stands_to_all(comparison, written, first, last, days)
}

/// Whether nothing of a date is known.
fn is_unknown(value: &[u8]) -> bool
    ensures { IsTrue result ↔ (value.now ≡ codes "????.??.??") }
{
    value == b"????.??.??".as_slice()
}

/// Whether the value of the contents is a date of which a digit is known, and the comparison holds
/// of each day that it may be.
pub(crate) fn is_date(comparison: Comparison, given: &[u8], days: Days) -> bool
    requires contents { IsContents given.now }
    requires good { AreGoodDays days }
    ensures { IsTrue result ↔ IsDate comparison given.now days }
{
    if is_unknown(given) {
        return false;
    }
    stands_surely(comparison, given, days)
}
