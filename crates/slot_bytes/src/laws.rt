//! What holds of all slot files.
ghost use Rattle.std.specs.Prelude.{◌≡◌, ◌==◌, ◌++◌, ◌⊎◌, ℕ, List, length, if◌then◌else◌};
ghost use Rattle.byte_reader.specs.Reading.{IsBytes};
ghost use Rattle.byte_reader.specs.Exact.{InRange, IsStable};
ghost use Rattle.slot_bytes.specs.Layout.{Mail, IsMail, AreMarks, done_of, slot_bytes};
ghost use Rattle.slot_bytes.specs.Reading.{Head, done_in, head_at, reads};
ghost use Rattle.slot_bytes.specs.Reading.Reading.{Free, Whole, Aside, Bad};
ghost use Rattle.slot_bytes.specs.Files.{IsFreeFile, IsKeptFile, IsSlotFile, IsLongestBeginning};

/// What is written in either version is read again, whatever follows it.
pub fn again()
    ensures kept { (version gate aside : ℕ) (marks : List ℕ) (m : Mail) (rest : List ℕ) →
        InRange 1 255 gate → InRange 0 255 aside → AreMarks version (length m.rcpts) marks → IsMail m →
        reads (slot_bytes version gate aside marks m ++ rest) ≡ (if aside == 0 then Whole m else Aside m) }
    ensures done { (version gate aside : ℕ) (marks : List ℕ) (m : Mail) (rest : List ℕ) →
        InRange 1 255 gate → InRange 0 255 aside → AreMarks version (length m.rcpts) marks → IsMail m →
        done_in (slot_bytes version gate aside marks m ++ rest) ≡ done_of marks }
    ensures free { (bytes : List ℕ) → IsFreeFile bytes → reads bytes ≡ Free }
{}

/// Bytes are bad exactly where they are no slot file, and the bad place is the length of the longest prefix that begins
/// some slot file.
pub fn first_bad_byte()
    ensures longest { (bytes : List ℕ) (at : ℕ) → IsBytes bytes → reads bytes ≡ Bad at → IsLongestBeginning bytes at }
    ensures none { (bytes : List ℕ) (at : ℕ) → reads bytes ≡ Bad at → IsSlotFile bytes → ⊥ }
    ensures some { (bytes : List ℕ) → IsBytes bytes → IsSlotFile bytes ⊎ ((at : ℕ) × (reads bytes ≡ Bad at)) }
    ensures one { (bytes : List ℕ) (m n : ℕ) → IsLongestBeginning bytes m → IsLongestBeginning bytes n → m ≡ n }
{}

/// What a front decides of the head stands, whatever follows the front.
pub fn a_front_decides()
    ensures head { IsStable Head head_at }
{}
