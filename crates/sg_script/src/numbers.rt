// What numbers and texts of a script stand for.
ghost use Rattle.std.specs.Prelude.{◌≡◌, nat_lt};
ghost use Rattle.std.specs.List.{list_all};
ghost use Rattle.sg_script.specs.Numbers.{counts_as, is_known_client, is_text, unquoted};
ghost use Rattle.sg_script_parse.specs.sg_lex.Numbers.{value_of_digits};
ghost use Rattle.sg_facts.specs.sg_base.Counts.{last_count};
ghost use Rattle.sg_facts.specs.sg_base.Text.{is_text_byte};

use sg_facts::{LAST_CLIENT, Text, is_text_byte};
use sg_script_parse::number_of_digits;

/// What digits count as: a number above the greatest of 64 bits counts as the greatest.
pub fn counts_as(digits: &[u8]) -> u64
    ensures { result ≡ counts_as digits.now }
{
    number_of_digits(digits).unwrap_or(u64::MAX)
}

/// Whether digits stand for a number above the greatest of 64 bits.
pub fn is_above(digits: &[u8]) -> bool
    ensures { result ≡ nat_lt last_count (value_of_digits digits.now) }
{
    number_of_digits(digits).is_none()
}

/// Whether a number is a client's.
pub fn is_known_client(number: u64) -> bool
    ensures { result ≡ is_known_client number }
{
    number >= 1 && number <= u64::from(LAST_CLIENT)
}

/// What stands between the quotes of a text.
pub fn unquoted(quoted: &[u8]) -> &[u8]
    ensures { result.now ≡ unquoted quoted.now }
{
    match quoted {
        [_, inner @ .., _] => inner,
        _ => &[],
    }
}

/// Whether these bytes are a text as calls take it.
pub fn is_text(bytes: &[u8]) -> bool
    ensures { result ≡ is_text bytes.now }
{
    bytes.len() <= Text::MOST && are_text_bytes(bytes)
}

// Whether a text may have these bytes.
fn are_text_bytes(bytes: &[u8]) -> bool
    ensures { result ≡ list_all is_text_byte bytes.now }
{
    bytes.iter().all(|byte| is_text_byte(*byte))
}
