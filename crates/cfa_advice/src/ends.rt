// What is told of lines that tell how a call ended.

const LOCKS: &str =
    "with locks nothing is known of what they skip; run with -K to learn whether a rerun \
would change nothing";

const VISITS: &str =
    "more than 1,000,000 visits were needed: shorten lists, or part the policy; what was done \
before stays done";

/// What is told of the line of a run's end, on a terminal. None where it ended settled.
pub fn settled_sentence(cause: &str) -> Option<&'static str> {
    match cause {
        "locks" => Some(LOCKS),
        "failed" => Some("mend what the failed promises name, and run again"),
        "conflict" => Some("`check` with the same -D names the conflict"),
        "limit" => Some(
            "the analysis needs more than 1,000,000 visits: shorten lists, or part the policy",
        ),
        _ => None,
    }
}

/// What is told of what stopped a call, but for a call on the outside.
pub fn stop_sentence(cause: &str) -> Option<&'static str> {
    match cause {
        "memory" => Some("no memory was left; what was done before stays done"),
        "visits" => Some(VISITS),
        "pattern" => Some(
            "a pattern is too big for the crate regex: write smaller counts, or part it",
        ),
        _ => None,
    }
}

/// What is told of a moment that is refused.
pub const MOMENT: &str = "the clock can't be read, or stands after the year 9998";
