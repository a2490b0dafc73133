//! What the definitions of `specs/` come to. Each function states laws and does nothing.
ghost use Rattle.std.specs.Prelude.{◌≡◌, ◌↔◌, ℕ, ◌<◌, ◌≤◌, Bool, List, [], ◌∷◌, ◌++◌, length, map, codes, Some, Ok, Err, true, false, not, IsTrue, flat_map};
ghost use Rattle.std.specs.List.{list_all};
ghost use Rattle.smap_lines.specs.Body.{body_after, body_from, mail_body_of, cut, has_end, with_end, sent_body};
ghost use Rattle.smap_lines.specs.Blank.{is_blank};
ghost use Rattle.smap_lines.specs.Command.{AsksWith, bare, command_with, ends_word, mail, mail_command_of, rcpt};
ghost use Rattle.smap_lines.specs.Path.{IsInBrackets, is_allowed, path_of};
ghost use Rattle.smap_lines.specs.Verb.{is, mail_verb_of};
ghost use Rattle.smap_lines.specs.declared.path.PathFault.TheVariants.{NotAllowed};
ghost use Rattle.smap_lines.specs.declared.verb.Verb.TheVariants.{Unknown};
ghost use Rattle.smap_lines.specs.MailBodyView.{AllGive, GivesBody, MailBodyView, BodyFed, given, is_body_end, body_view_after};
ghost use Rattle.smap_lines.specs.declared.body.BodyStep.TheVariants.{End};

/// A body of lines that is sent with its periods doubled and its end is read back, and what follows it is left.
pub fn written_bodies()
    ensures { (lines : List (List ℕ)) (rest : List ℕ) → IsTrue (list_all (λ line. not (has_end line)) lines)
        → mail_body_of (sent_body lines ++ rest) ≡ Some record { bytes = flat_map with_end lines; rest = rest } }
{}

/// A text is cut into lines that end at CR LF, and a rest. What lines without CR LF in them and such a rest are put
/// together to is cut into these.
pub fn cut_texts()
    ensures whole { (text : List ℕ) → flat_map with_end (cut text).lines ++ (cut text).rest ≡ text }
    ensures lines { (lines : List (List ℕ)) (rest : List ℕ) → IsTrue (list_all (λ line. not (has_end line)) lines) →
        has_end rest ≡ false
        → cut (flat_map with_end lines ++ rest) ≡ record { lines = lines; rest = rest } }
{}

/// What steps over the data give, from a new reader on, is a front of the body, however the data go on. With the step
/// that tells the end it is the body.
pub fn whole_bodies()
    ensures front { (steps : List BodyFed) (rest : List ℕ) → AllGive record { middle = false; pending = [] } steps
        → IsTrue (list_all (λ step. not (is_body_end step.answer)) steps)
        → mail_body_of (map (λ step. step.byte) steps ++ rest) ≡ body_after (flat_map (λ step. given step.answer) steps)
        (body_from (body_view_after record { middle = false; pending = [] } steps).middle ((body_view_after record { middle = false; pending = [] } steps).pending ++ rest)) }
    ensures whole { (steps : List BodyFed) (byte : ℕ) (after : MailBodyView) (rest : List ℕ) →
        AllGive record { middle = false; pending = [] } steps
        → IsTrue (list_all (λ step. not (is_body_end step.answer)) steps)
        → GivesBody End (body_view_after record { middle = false; pending = [] } steps) after byte
        → mail_body_of (map (λ step. step.byte) steps ++ byte ∷ rest) ≡ Some record {
          bytes = flat_map (λ step.
              given step.answer) steps;
          rest = rest;
        } }
{}

/// The paths of texts (RFC 821, section 4.1.2). A path is read exactly where it stands in brackets, has at most 256
/// bytes, isn't empty where it may not be, and is allowed. `NotAllowed` is answered exactly where the last of these is
/// all that is wrong, and so `Syntax` for any other text.
pub fn paths()
    ensures ok { (may_be_empty : Bool) (text path : List ℕ) → (path_of may_be_empty text ≡ Ok path)
        ↔ (IsInBrackets text path × (length path ≤ 256) × (path ≡ [] → may_be_empty ≡ true)
        × IsTrue (is_allowed path)) }
    ensures not_allowed { (may_be_empty : Bool) (text : List ℕ) → (path_of may_be_empty text ≡ Err NotAllowed)
        ↔ ((path : List ℕ) × IsInBrackets text path × (length path ≤ 256) × (is_allowed path ≡ false)) }
{}

/// The lines of commands (RFC 821, sections 2 and 4.1.1). Words that differ in case alone are one verb. What matters
/// behind a word is read of all that follows it. The text of a path is what follows `MAIL FROM:` and `RCPT TO:`, in any
/// case and with one space in them, and no other line has one. More than 512 bytes are no command.
pub fn commands()
    ensures verb { (word other : List ℕ) → is word other ≡ true → mail_verb_of word ≡ mail_verb_of other }
    ensures rest { (word rest : List ℕ) → IsTrue (list_all (λ b. not (is_blank b)) word) → IsTrue (ends_word rest)
        → length (word ++ rest) ≤ 512
        → mail_command_of (word ++ rest) ≡ command_with (mail_verb_of word) rest }
    ensures mail { (line text : List ℕ) → (mail_command_of line ≡ mail (Some text))
        ↔ AsksWith (codes "MAIL") (codes " FROM:") line text }
    ensures rcpt { (line text : List ℕ) → (mail_command_of line ≡ rcpt (Some text))
        ↔ AsksWith (codes "RCPT") (codes " TO:") line text }
    ensures long { (line : List ℕ) → 512 < length line → mail_command_of line ≡ bare Unknown }
{}
