ghost use Rattle.std.specs.Prelude.{◌≡◌, IsTrue};
ghost use Rattle.std.specs.Char.{is_ascii_digit};
ghost use Rattle.std.specs.List.{list_all};
ghost use Rattle.std.specs.Str.Parse.{digits_value};
ghost use Rattle.fw_types.specs.Number.{in_range, is_number, number_of};

fn all_digits(text: &[u8]) -> bool
    ensures { result ≡ list_all is_ascii_digit text.now }
{
    text.iter().all(|byte| byte.is_ascii_digit())
}

fn is_number(text: &[u8]) -> bool
    ensures { result ≡ is_number text.now }
{
    !text.is_empty() && text.len() <= 10 && all_digits(text)
}

fn value_of(text: &[u8]) -> u64
    requires { IsTrue (is_number text.now) }
    ensures { result ≡ digits_value 10 text.now }
{
    let mut value: u64 = 0;
    for byte in text {
        value = value * 10 + u64::from(*byte - b'0');
    }
    value
}

/// The number that a text of 1 to 10 digits is, or nothing for other texts.
pub fn read_number(text: &[u8]) -> Option<u64>
    ensures { result ≡ number_of text.now }
{
    if !is_number(text) {
        return None;
    }
    Some(value_of(text))
}

/// The number, where it is at least the lowest and at most the highest.
pub fn in_range(lowest: u64, highest: u64, number: Option<u64>) -> Option<u64>
    ensures { result ≡ in_range lowest highest number }
{
    match number {
        Some(number) if lowest <= number && number <= highest => Some(number),
        _ => None,
    }
}
