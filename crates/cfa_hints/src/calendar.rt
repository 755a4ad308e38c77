// The names that classes of the calendar may have.
use cfa_base::is_decimal;

const NAMES: [&str; 24] = [
    "any",
    "January",
    "February",
    "March",
    "April",
    "May",
    "June",
    "July",
    "August",
    "September",
    "October",
    "November",
    "December",
    "Monday",
    "Tuesday",
    "Wednesday",
    "Thursday",
    "Friday",
    "Saturday",
    "Sunday",
    "Night",
    "Morning",
    "Afternoon",
    "Evening",
];

fn is_between(number: Option<u64>, least: u64, most: u64) -> bool {
    match number {
        Some(number) => least <= number && number <= most,
        None => false,
    }
}

// A number without a leading zero.
fn plain_number(text: &str) -> Option<u64> {
    if is_decimal(text.as_bytes()) {
        text.parse::<u64>().ok()
    } else {
        None
    }
}

// A number in two digits.
fn two_digits(text: &str) -> Option<u64> {
    if text.len() == 2 && text.bytes().all(|byte| byte.is_ascii_digit()) {
        text.parse::<u64>().ok()
    } else {
        None
    }
}

// The minute in which five minutes end that begin with this one.
fn five_later(minute: u64) -> u64 {
    if minute == 55 {
        0
    } else {
        minute.saturating_add(5)
    }
}

// What stands behind `Min`: a minute, or the first of five with the one in which they end.
fn is_minute(text: &str) -> bool {
    let Some((first, end)) = text.split_once('_') else {
        return is_between(two_digits(text), 0, 59);
    };
    match (two_digits(first), two_digits(end)) {
        (Some(first), Some(end)) => first <= 55 && first % 5 == 0 && end == five_later(first),
        _ => false,
    }
}

fn is_numbered(name: &str) -> bool {
    if let Some(rest) = name.strip_prefix("Yr") {
        return is_between(plain_number(rest), 1970, 9998);
    }
    if let Some(rest) = name.strip_prefix("Day") {
        return is_between(plain_number(rest), 1, 31);
    }
    if let Some(rest) = name.strip_prefix("Hr") {
        return is_between(two_digits(rest), 0, 23);
    }
    match name.strip_prefix("Min") {
        Some(rest) => is_minute(rest),
        None => false,
    }
}

// Whether a class of the calendar has this name at some moment.
pub fn is_of_calendar(name: &str) -> bool {
    for class in NAMES {
        if class == name {
            return true;
        }
    }
    is_numbered(name)
}
