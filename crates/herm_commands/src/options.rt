//! The options of a run.
ghost use Rattle.std.specs.Prelude.{◌≡◌, MatchOption, true, false, codes};
ghost use Rattle.std.specs.List.{list_all};
ghost use Rattle.clap.specs.Words.{found_of, first_of, rows_of};
ghost use Rattle.herm_commands.specs.Words.{arg_of, has_bad_limit, has_bad_option, has_both_reports, is_arg, is_arg_byte, is_set};
ghost use Rattle.herm_commands.specs.Words.{number_or, options_seen, shows_of};
ghost use Rattle.herm_commands.specs.Words.{options_of as wanted_options};

use crate::commands::{RunOptions, Shows};
use crate::numbers::given_number;
use clap::ArgMatches;
use herm_base::Limits;

// The options that are given, and the defaults of the others; none where one is refused.
pub(crate) fn options_of<'a>(matches: &ArgMatches<'a>) -> Option<RunOptions<'a>>
    ensures options { MatchOption result (has_bad_option (rows_of (found_of matches.now)) ≡ true)
        (λ o. (has_bad_option (rows_of (found_of matches.now)) ≡ false) × (options_seen o ≡ wanted_options (rows_of (found_of matches.now)))) }
{
    let limits = limits_of(matches)?;
    let arg = arg_text(matches)?;
    let shows = report_of(matches)?;
    Some(RunOptions { limits, arg, shows })
}

// The four limits; none where a number is not in its range.
fn limits_of(matches: &ArgMatches<'_>) -> Option<Limits>
    ensures limits { MatchOption result (has_bad_limit (rows_of (found_of matches.now)) ≡ true)
        (λ l. (has_bad_limit (rows_of (found_of matches.now)) ≡ false)
        × (l.workers ≡ number_or 1 (first_of (codes "workers") (rows_of (found_of matches.now))))
        × (l.steps ≡ number_or 100000 (first_of (codes "steps") (rows_of (found_of matches.now))))
        × (l.processes ≡ number_or 64 (first_of (codes "processes") (rows_of (found_of matches.now))))
        × (l.ports ≡ number_or 1024 (first_of (codes "ports") (rows_of (found_of matches.now))))) }
{
    let workers = given_number(matches, "workers", 1, 1)?;
    let steps = given_number(matches, "steps", 1_000_000, 100_000)?;
    let processes = given_number(matches, "processes", 1024, 64)?;
    let ports = given_number(matches, "ports", 16_384, 1024)?;
    Some(Limits {
        processes: processes as u64,
        ports: ports as u64,
        steps: steps as u64,
        workers: workers as u64,
    })
}

// The text for the main process; none where it is too long or has another byte.
fn arg_text<'a>(matches: &ArgMatches<'a>) -> Option<&'a str>
    ensures arg { MatchOption result (is_arg (arg_of (rows_of (found_of matches.now))) ≡ false)
        (λ t. (is_arg (arg_of (rows_of (found_of matches.now))) ≡ true) × (t.now ≡ arg_of (rows_of (found_of matches.now)))) }
{
    let text = given_text(matches);
    if is_text(text) { Some(text) } else { None }
}

// The text that is given for the main process, or the empty text.
fn given_text<'a>(matches: &ArgMatches<'a>) -> &'a str
    ensures text { result.now ≡ arg_of (rows_of (found_of matches.now)) }
{
    match matches.get_str("arg") {
        Some(text) => text,
        None => "",
    }
}

// At most 4,096 bytes, of which each is printable or a newline.
fn is_text(text: &str) -> bool
    ensures arg { result ≡ is_arg text.now }
{
    text.len() <= 4096 && are_arg_bytes(text.as_bytes())
}

fn are_arg_bytes(bytes: &[u8]) -> bool
    ensures bytes { result ≡ list_all is_arg_byte bytes.now }
{
    bytes.iter().all(|b| is_arg_byte(*b))
}

fn is_arg_byte(b: u8) -> bool
    ensures byte { result ≡ is_arg_byte b }
{
    (32 <= b && b <= 126) || b == 10
}

// What is shown beside the text; none where both are asked for.
fn report_of(matches: &ArgMatches<'_>) -> Option<Shows>
    ensures shows { MatchOption result (has_both_reports (rows_of (found_of matches.now)) ≡ true)
        (λ shows. (has_both_reports (rows_of (found_of matches.now)) ≡ false) × (shows ≡ shows_of (rows_of (found_of matches.now)))) }
{
    match (is_given(matches, "journal"), is_given(matches, "summary")) {
        (true, true) => None,
        (true, false) => Some(Shows::Journal),
        (false, true) => Some(Shows::Summary),
        (false, false) => Some(Shows::Nothing),
    }
}

fn is_given(matches: &ArgMatches<'_>, flag: &str) -> bool
    ensures flag { result ≡ is_set flag.now (rows_of (found_of matches.now)) }
{
    match matches.get_str(flag) {
        Some(text) => text == "true",
        None => false,
    }
}
