//! What all texts that people write have in common: fronts, and decimal numbers.

ghost use Rattle.std.specs.Prelude.{◌≡◌, ◌+◌, ◌≤◌, IfSome};
ghost use Rattle.std.specs.Char.{is_ascii_digit};
ghost use Rattle.std.specs.List.{list_all};
ghost use Rattle.std.specs.Option.{option_copied};
ghost use Rattle.ua_types.specs.IdTexts.{behind, number_of};

/// What follows a front, where the text has it.
pub fn behind<'a>(text: &'a str, front: &str) -> Option<&'a str>
    ensures { option_copied result ≡ behind front.now text.entry.now }
{
    text.strip_prefix(front)
}

fn all_digits(text: &str) -> bool
    ensures { result ≡ list_all is_ascii_digit text.now }
{
    text.as_bytes().iter().all(|b| b.is_ascii_digit())
}

/// The number that one or more decimal digits say, where it is no higher than `highest`. A sign isn't
/// a digit, and leading zeros are good.
pub fn decimal_up_to(highest: u64, digits: &str) -> Option<u64>
    ensures value { result ≡ number_of (highest + 1) digits.now }
    ensures fits { IfSome result (λ n. n ≤ highest) }
{
    if !all_digits(digits) {
        return None;
    }
    let Ok(number) = digits.parse::<u64>() else {
        return None;
    };
    if number <= highest {
        Some(number)
    } else {
        None
    }
}
