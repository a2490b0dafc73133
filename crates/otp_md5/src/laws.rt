//! What holds of all passwords.
ghost use Rattle.std.specs.Prelude.{◌≡◌, ◌+◌, ℕ, suc, List};
ghost use Rattle.otp_md5.specs.Passwords.{initial_of, next_of, password, repeated};

/// The password of a count is `next` taken so many times from `initial`, and each leads to the one of the next count.
pub fn passwords()
    ensures counted { (word_seed phrase : List ℕ) (count : ℕ) →
        password word_seed phrase count ≡ repeated next_of count (initial_of word_seed phrase) }
    ensures later { (word_seed phrase : List ℕ) (count more : ℕ) →
        password word_seed phrase (count + more) ≡ repeated next_of more (password word_seed phrase count) }
    ensures right { (word_seed phrase : List ℕ) (count : ℕ) →
        next_of (password word_seed phrase count) ≡ password word_seed phrase (suc count) }
{}
