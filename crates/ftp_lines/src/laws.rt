//! What holds of all texts.
ghost use Rattle.std.specs.Prelude.{◌≡◌, ◌↔◌, ◌==◌, ◌++◌, ℕ, List, [], ◌∷◌, Some, None, true, not, IsTrue, map};
ghost use Rattle.ftp_lines.specs.Feeding.{AllFed, AllFedLines, ReplyFed, ended_replies, heard_lines};
ghost use Rattle.ftp_lines.specs.Replies.{replies_of};
ghost use Rattle.ftp_lines.specs.Reply.{IsFirst, ended_parts, first_code, first_reply, told_code, without_end};
ghost use Rattle.ftp_lines.specs.ReplyReaderView.{short};
ghost use Rattle.std.specs.List.{list_all};
ghost use Rattle.fw_types.specs.Verb.{verb_of};
ghost use Rattle.ftp_lines.specs.Command.{IsCommand, ftp_command_of, is_command_text};
ghost use Rattle.ftp_lines.specs.Six.{AreSix, IsBeyond, IsLeadingSix, IsLeftmostSix, IsPassed, find_of, is_quiet, six_at, six_of, six_text};

/// What is written as six numbers is read as that address and port, and found in a text in which no six numbers begin
/// before it and no digit follows it: as where none of the digits before it stands at their end or before a comma. A
/// text begins with six numbers exactly where its first bytes are six numbers and no digit follows them. Those that are
/// found begin at the leftmost place at which any begin.
pub fn six()
    ensures read { (addr : List ℕ) (port : ℕ) → AreSix addr port → six_of (six_text addr port) ≡ Some (addr, port) }
    ensures found { (before after addr : List ℕ) (port : ℕ) → AreSix addr port → IsBeyond after
        → IsPassed before (six_text addr port ++ after) →
        find_of (before ++ (six_text addr port ++ after)) ≡ Some (addr, port) }
    ensures quiet { (before after addr : List ℕ) (port : ℕ) → AreSix addr port → IsBeyond after
        → is_quiet before ≡ true → find_of (before ++ (six_text addr port ++ after)) ≡ Some (addr, port) }
    ensures begins { (text : List ℕ) (six : List ℕ × ℕ) → (six_at text ≡ Some six) ↔ IsLeadingSix text six }
    ensures leftmost { (text : List ℕ) (six : List ℕ × ℕ) → (find_of text ≡ Some six) ↔ IsLeftmostSix text six }
{}

/// The first reply of a text stays its first reply whatever follows, and it is the first bytes of the text that are
/// one.
pub fn replies()
    ensures stays { (text more : List ℕ) (count code : ℕ) → first_reply text ≡ Some (count, code)
        → first_reply (text ++ more) ≡ Some (count, code) }
    ensures first { (text : List ℕ) (count code : ℕ) → first_reply text ≡ Some (count, code) → IsFirst text count code }
{}

/// Steps over a whole text, from a new reader on, end the replies of the text, each of the bytes that were fed since
/// the one before it. The lines that are heard at `Line` and `Last` are those of the text that an LF ends, each where
/// it has at most 512 bytes.
pub fn whole_texts()
    ensures replies { (steps : List ReplyFed) → AllFed record { fed = []; heard = None } steps → ended_replies [] steps
        ≡ replies_of (map (λ step. step.byte) steps) }
    ensures lines { (steps : List ReplyFed) → AllFed record { fed = []; heard = None } steps
        → AllFedLines record { fed = []; heard = None } steps →
        heard_lines steps ≡ map (λ part. short (without_end part)) (ended_parts (map (λ step. step.byte) steps)) }
{}

/// The code that a text's first line tells stays whatever follows, and a reply that begins so has it. Behind its LF
/// that line tells what it tells as a whole, without its end.
pub fn first_codes()
    ensures stays { (text more : List ℕ) (code : ℕ) → first_code text ≡ Some code → first_code (text ++ more) ≡ Some code }
    ensures reply { (text more : List ℕ) (code count last : ℕ) → first_code text ≡ Some code
        → first_reply (text ++ more) ≡ Some (count, last) → last ≡ code }
    ensures line { (line rest : List ℕ) → IsTrue (list_all (λ b. not (b == 10)) line) →
        first_code (line ++ 10 ∷ rest) ≡ told_code (without_end line) }
{}

/// A command that is written as its verb, a space and its argument is read back. What is read of a line, written so,
/// is read as the same. A line is a command exactly where it has at most 512 bytes, none of them 0, 10, 13 or 255, and
/// is a word of 1 to 16 letters, alone or with a space and the argument behind it: the verb is that word in upper case.
pub fn commands()
    ensures written { (verb arg : List ℕ) → verb_of verb ≡ Some verb → IsTrue (is_command_text (verb ++ 32 ∷ arg)) →
        ftp_command_of (verb ++ 32 ∷ arg) ≡ Some (verb, arg) }
    ensures again { (line verb arg : List ℕ) → ftp_command_of line ≡ Some (verb, arg) →
        ftp_command_of (verb ++ 32 ∷ arg) ≡ Some (verb, arg) }
    ensures exact { (line verb arg : List ℕ) → (ftp_command_of line ≡ Some (verb, arg)) ↔ IsCommand line verb arg }
{}
