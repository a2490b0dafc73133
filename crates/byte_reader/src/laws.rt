//! What holds of the readers, over all bytes.
ghost use Rattle.std.specs.Prelude.{◌≡◌, ◌≤◌, ◌<◌, ◌^◌, ℕ, List, Bool, true};
ghost use Rattle.byte_reader.specs.Reading.{byte_at, bytes_at, text_at, short_at, long_number_at, counted_at};
ghost use Rattle.byte_reader.specs.Exact.{ReadsExactly, IsStable, InRange, IsTextOf, IsBytesOf, IsLong, IsTextWithin, HasBytes, one, two, itself, long_bytes, with_length};

/// Each reader reads exactly what is spelled, and its first bad byte is the end of the longest beginning of a spelling.
pub fn exact()
    ensures byte { (least most : ℕ) → least ≤ most → ReadsExactly ℕ (byte_at least most) (InRange least most) one }
    ensures short { (least most : ℕ) → least ≤ most → ReadsExactly ℕ (short_at least most) (InRange least most) two }
    ensures long { ReadsExactly ℕ long_number_at IsLong long_bytes }
    ensures bytes { (n : ℕ) → ReadsExactly (List ℕ) (bytes_at n) (IsBytesOf n) itself }
    ensures text { (test : ℕ → Bool) (n some : ℕ) → test some ≡ true → some < 256
        → ReadsExactly (List ℕ) (text_at test n) (IsTextOf test n) itself }
    ensures with_length { (least most : ℕ) (test : ℕ → ℕ → Bool) → least ≤ most → HasBytes test
        → ReadsExactly (List ℕ) (counted_at least most test) (IsTextWithin least most test) with_length }
{}

/// What a front decides stands, whatever follows the front.
pub fn stable()
    ensures byte { (least most : ℕ) → IsStable ℕ (byte_at least most) }
    ensures short { (least most : ℕ) → IsStable ℕ (short_at least most) }
    ensures long { IsStable ℕ long_number_at }
    ensures bytes { (n : ℕ) → IsStable (List ℕ) (bytes_at n) }
{}
