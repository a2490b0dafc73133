ghost use Rattle.std.specs.Prelude.{◌≡◌, ◌≤◌};
ghost use Rattle.auth_events.specs.OtpNumber.{otp_number_of};

use std::marker::Model;

/// The count that new one-time passwords begin with: 1 to 9,999 (RFC 2289, 6.0, names it the sequence number).
#[derive(Drop)]
pub struct OtpNumber {
    value: u32,
}

impl Model for OtpNumber {
    ghost use Rattle.std.specs.Prelude.{ℕ, ◌≤◌};

    ghost Value = { ℕ };

    ghost view = { λ number. number.value };

    ghost invariant = { λ number. (1 ≤ number.value) × (number.value ≤ 9999) };
}

impl OtpNumber {
    /// The count, or nothing where it is out of range.
    pub fn of(value: u32) -> Option<OtpNumber>
        ensures { result ≡ otp_number_of value }
    {
        if 1 <= value && value <= 9999 {
            Some(OtpNumber { value })
        } else {
            None
        }
    }

    /// It as a number.
    pub fn value(&self) -> u32
        ensures value { result ≡ self.now }
        ensures least { 1 ≤ self.now }
        ensures most { self.now ≤ 9999 }
    {
        self.value
    }

    /// An equal count.
    pub fn twin(&self) -> OtpNumber
        ensures { result ≡ self.now }
    {
        OtpNumber { value: self.value }
    }
}
