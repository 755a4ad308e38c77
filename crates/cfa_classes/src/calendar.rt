// Calendar classes.
ghost use Rattle.std.specs.Prelude.{◌≡◌, ◌<◌, ◌≤◌, ◌++◌, pos, unsigned_abs, IfOk, OnOk};
ghost use Rattle.jiff.specs.Words.{civil_nanos, monday_zero, nanos_of_seconds, weekday_of};
ghost use Rattle.cfa_classes.specs.Calendar.{month_name, weekday_name, year_class, day_class, hour_class, minute_class, five_minutes_class, part_of_day, date_classes, time_classes, hard_classes, civil_classes};

use cfa_base::{LAST_MOMENT, Name, Names, NoMemory};
use jiff::Timestamp;
use jiff::civil::{Date, DateTime, Time, Weekday};
use jiff::tz::Offset;
use std::alloc::Global;

/// The calendar classes of a moment, a number of seconds since the Epoch (1970-01-01T00:00:00Z, as POSIX counts them).
/// They say its date and time in UTC, and begin with `any`.
pub fn hard(alloc: Global, moment: u64) -> Result<Names, NoMemory>
    requires { moment ≤ LAST_MOMENT }
    ensures table { IfOk result (λ classes. classes ≡ hard_classes moment) }
    ensures civil { IfOk result (λ classes. (civil : DateTime)
        → civil_nanos civil ≡ nanos_of_seconds (pos moment) → classes ≡ civil_classes civil) }
{
    let civil = in_utc(moment);
    let mut classes = Names::new(alloc);
    classes.push(Name::from_text(alloc, "any")?)?;
    push_date(alloc, civil.date(), &mut classes)?;
    push_time(alloc, civil.time(), &mut classes)?;
    Ok(classes)
}

fn in_utc(moment: u64) -> DateTime
    requires { moment ≤ LAST_MOMENT }
    ensures { civil_nanos result ≡ nanos_of_seconds (pos moment) }
{
    let instant = Timestamp::from_second(moment as i64).unwrap();
    Offset::UTC.to_datetime(instant)
}

fn push_date(alloc: Global, date: Date, classes: &mut Names) -> Result<(), NoMemory>
    ensures { OnOk result (classes.new
        ≡ classes.old
        ++ date_classes (unsigned_abs date.year) date.month date.day (weekday_of date)) }
{
    classes.push(year_class(alloc, date.year().unsigned_abs())?)?;
    classes.push(Name::from_text(alloc, month_name(date.month().unsigned_abs()))?)?;
    classes.push(day_class(alloc, date.day().unsigned_abs())?)?;
    classes.push(Name::from_text(alloc, weekday_name(date.weekday()))?)?;
    Ok(())
}

fn push_time(alloc: Global, time: Time, classes: &mut Names) -> Result<(), NoMemory>
    ensures { OnOk result (classes.new ≡ classes.old ++ time_classes time.hour time.minute) }
{
    let hour = time.hour().unsigned_abs();
    let minute = time.minute().unsigned_abs();
    classes.push(hour_class(alloc, hour)?)?;
    classes.push(minute_class(alloc, minute)?)?;
    classes.push(five_minutes_class(alloc, minute)?)?;
    classes.push(Name::from_text(alloc, part_of_day(hour))?)?;
    Ok(())
}

#[tactic(auto, unfolding(crate::specs::Calendar::year_class))]
fn year_class(alloc: Global, year: u16) -> Result<Name, NoMemory>
    ensures { IfOk result (λ class. class ≡ year_class year) }
{
    Ok(Name::from_string(format!(in alloc; "Yr{year}")?)?)
}

#[tactic(auto, unfolding(crate::specs::Calendar::day_class))]
fn day_class(alloc: Global, day: u8) -> Result<Name, NoMemory>
    ensures { IfOk result (λ class. class ≡ day_class day) }
{
    Ok(Name::from_string(format!(in alloc; "Day{day}")?)?)
}

fn hour_class(alloc: Global, hour: u8) -> Result<Name, NoMemory>
    requires { hour < 24 }
    ensures { IfOk result (λ class. class ≡ hour_class hour) }
{
    Ok(Name::from_string(format!(in alloc; "Hr{hour:02}")?)?)
}

fn minute_class(alloc: Global, minute: u8) -> Result<Name, NoMemory>
    requires { minute < 60 }
    ensures { IfOk result (λ class. class ≡ minute_class minute) }
{
    Ok(Name::from_string(format!(in alloc; "Min{minute:02}")?)?)
}

fn five_minutes_class(alloc: Global, minute: u8) -> Result<Name, NoMemory>
    requires { minute < 60 }
    ensures { IfOk result (λ class. class ≡ five_minutes_class minute) }
{
    let first = minute / 5 * 5;
    let next = (first + 5) % 60;
    Ok(Name::from_string(format!(in alloc; "Min{first:02}_{next:02}")?)?)
}

fn month_name(month: u8) -> &'static str
    requires from { 1 ≤ month }
    requires to { month ≤ 12 }
    ensures { result.now ≡ month_name month }
{
    match month {
        1 => "January",
        2 => "February",
        3 => "March",
        4 => "April",
        5 => "May",
        6 => "June",
        7 => "July",
        8 => "August",
        9 => "September",
        10 => "October",
        11 => "November",
        _ => "December",
    }
}

fn weekday_name(weekday: Weekday) -> &'static str
    ensures { result.now ≡ weekday_name (monday_zero weekday) }
{
    match weekday {
        Weekday::Monday => "Monday",
        Weekday::Tuesday => "Tuesday",
        Weekday::Wednesday => "Wednesday",
        Weekday::Thursday => "Thursday",
        Weekday::Friday => "Friday",
        Weekday::Saturday => "Saturday",
        Weekday::Sunday => "Sunday",
    }
}

fn part_of_day(hour: u8) -> &'static str
    ensures { result.now ≡ part_of_day hour }
{
    match hour {
        0..=5 => "Night",
        6..=11 => "Morning",
        12..=17 => "Afternoon",
        _ => "Evening",
    }
}
