//! Numbers among the words.
ghost use Rattle.std.specs.Prelude.{◌≡◌, ◌≤◌, IfSome, MatchOption, true, false};
ghost use Rattle.std.specs.Char.{is_ascii_digit};
ghost use Rattle.std.specs.List.{list_all};
ghost use Rattle.std.specs.Str.Parse.{digits_value};
ghost use Rattle.clap.specs.Words.{first_of, found_of, rows_of};
ghost use Rattle.herm_commands.specs.Words.{is_bad_number, is_number, is_number_to, number_or};

use clap::ArgMatches;

// The number that is given for the argument, or the default; none where what is given is no number from 1 to the greatest.
pub(crate) fn given_number(
    matches: &ArgMatches<'_>,
    id: &str,
    greatest: u32,
    default: u32,
) -> Option<u32>
    requires default { (1 ≤ default) × (default ≤ greatest) }
    ensures given { MatchOption result (is_bad_number greatest (first_of id.now (rows_of (found_of matches.now))) ≡ true)
        (λ n. (is_bad_number greatest (first_of id.now (rows_of (found_of matches.now))) ≡ false)
        × (n ≡ number_or default (first_of id.now (rows_of (found_of matches.now))))) }
    ensures range { IfSome result (λ n. (1 ≤ n) × (n ≤ greatest)) }
{
    match matches.get_str(id) {
        Some(text) => number_to(greatest, text),
        None => Some(default),
    }
}

// The number from 1 to the greatest that the text writes.
pub(crate) fn number_to(greatest: u32, text: &str) -> Option<u32>
    ensures number { MatchOption result (is_number_to greatest text.now ≡ false)
        (λ n. (is_number_to greatest text.now ≡ true) × (n ≡ digits_value 10 text.now)) }
    ensures range { IfSome result (λ n. (1 ≤ n) × (n ≤ greatest)) }
{
    let n = number_of(text)?;
    if 1 <= n && n <= greatest {
        Some(n)
    } else {
        None
    }
}

// The number that 1 to 7 decimal digits write.
fn number_of(text: &str) -> Option<u32>
    ensures number { MatchOption result (is_number text.now ≡ false)
        (λ n. (is_number text.now ≡ true) × (n ≡ digits_value 10 text.now)) }
{
    if !is_number(text) {
        return None;
    }
    text.parse().ok()
}

// Whether the text is 1 to 7 decimal digits.
fn is_number(text: &str) -> bool
    ensures number { result ≡ is_number text.now }
{
    1 <= text.len() && text.len() <= 7 && are_digits(text.as_bytes())
}

fn are_digits(bytes: &[u8]) -> bool
    ensures digits { result ≡ list_all is_ascii_digit bytes.now }
{
    bytes.iter().all(|b| b.is_ascii_digit())
}
