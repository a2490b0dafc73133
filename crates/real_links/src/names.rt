//! Names of hosts that a resolver can't take for an address.
ghost use Rattle.std.specs.Prelude.{◌≡◌, ◌≤◌, length, nat_eq, reverse, ◌∷◌, [], if◌then◌else◌};
ghost use Rattle.std.specs.List.{ends_with, list_all, position, starts_with};
ghost use Rattle.std.specs.Char.{is_ascii_digit};
ghost use Rattle.real_links.specs.Names.{can_be_looked_up, is_like_a_number, is_period, last_label, last_label_length, without_last_period};

fn ends_with_period(name: &[u8]) -> bool
    ensures { result ≡ ends_with nat_eq name.now (46 ∷ []) }
{
    name.ends_with(b".")
}

/// The name without one period at its end.
pub(crate) fn without_last_period(name: &[u8]) -> &[u8]
    ensures { result.now ≡ without_last_period name.now }
{
    if ends_with_period(name) {
        &name[..name.len().saturating_sub(1)]
    } else {
        name
    }
}

fn last_period(name: &[u8]) -> Option<usize>
    ensures { result ≡ position is_period (reverse name.now) }
{
    name.iter().rev().position(|byte| *byte == b'.')
}

fn last_label_length(name: &[u8]) -> usize
    ensures length { result ≡ last_label_length name.now }
    ensures within { result ≤ length name.now }
{
    last_period(name).unwrap_or(name.len())
}

fn last_label(name: &[u8]) -> &[u8]
    ensures { result.now ≡ last_label name.now }
{
    let length = last_label_length(name);
    &name[name.len() - length..]
}

fn all_digits(label: &[u8]) -> bool
    ensures { result ≡ list_all is_ascii_digit label.now }
{
    label.iter().all(|byte| byte.is_ascii_digit())
}

fn is_like_a_number(label: &[u8]) -> bool
    ensures { result ≡ is_like_a_number label.now }
{
    all_digits(label) || label.starts_with(b"0x")
}

/// Whether a resolver can't take the name for an address, so that it may be handed to one.
pub fn can_be_looked_up(name: &[u8]) -> bool
    ensures { result ≡ can_be_looked_up name.now }
{
    !is_like_a_number(last_label(name))
}
