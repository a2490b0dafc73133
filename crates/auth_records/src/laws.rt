//! What holds of all records and all bytes.
ghost use Rattle.std.specs.Prelude.{◌≡◌, ◌++◌, List, ℕ, Ok, Err};
ghost use Rattle.auth_records.specs.declared.record.Record.{Record};
ghost use Rattle.auth_records.specs.Spelling.{IsBytes, IsRecord, Fields, HasForm, Spells, fields};
ghost use Rattle.auth_records.specs.Reading.{decoded};
ghost use Rattle.auth_records.specs.Fault.{IsLongestBeginning};

/// A record's bytes are decoded to it again (`read_again`), and only they are (`read_from`). No two records have the same
/// bytes, nor do the bytes of one begin those of another, in whichever version each is written.
pub fn inverse()
    ensures read_again { (bytes : List ℕ) (r : Record) → IsRecord r → Spells bytes r → decoded bytes ≡ Ok (fields r) }
    ensures read_from { (bytes : List ℕ) (r : Record) → IsBytes bytes → decoded bytes ≡ Ok (fields r) →
        IsRecord r × Spells bytes r }
    ensures one_record { (bytes : List ℕ) (r s : Record) → IsRecord r → IsRecord s → Spells bytes r → Spells bytes s →
        r ≡ s }
    ensures no_longer { (bytes rest : List ℕ) (r s : Record) → IsRecord r → IsRecord s → Spells (bytes ++ rest) r →
        Spells bytes s → r ≡ s }
{}

/// The place at which reading from left to right stops is the length of the longest prefix that begins some record's
/// bytes, and reading stops at no record's bytes.
pub fn first_bad_byte()
    ensures longest { (bytes : List ℕ) (at : ℕ) → IsBytes bytes → decoded bytes ≡ Err at → IsLongestBeginning bytes at }
    ensures none { (bytes : List ℕ) (at : ℕ) (r : Record) → IsBytes bytes → decoded bytes ≡ Err at → IsRecord r →
        ¬ Spells bytes r }
    ensures one { (bytes : List ℕ) (m n : ℕ) → IsLongestBeginning bytes m → IsLongestBeginning bytes n → m ≡ n }
{}

/// A record is its fields: records with the same fields are one, and fields that fit are some record's.
pub fn plain_data()
    ensures same { (r s : Record) → fields r ≡ fields s → r ≡ s }
    ensures some { (f : Fields) → HasForm f → (r : Record) × (fields r ≡ f) }
{}
