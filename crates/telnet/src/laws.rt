//! What the definitions of `specs/` come to. Each function states laws and does nothing.
ghost use Rattle.std.specs.Prelude.{◌≡◌, ◌≢◌, ◌==◌, ℕ, ◌<◌, ◌≤◌, List, [], ◌∷◌, ◌++◌, Bool, ◌&&◌, not, IsTrue, map, flat_map, Option, Some, ◌↔◌};
ghost use Rattle.std.specs.List.{list_all};
ghost use Rattle.telnet.specs.Cutting.{is_line_byte};
ghost use Rattle.telnet.specs.Items.{data_of, doubled, is_inside};
ghost use Rattle.telnet.specs.Lines.{heard, lines_heard, lines_of};
ghost use Rattle.telnet.specs.First.{FirstHeard, IsFirst, first_heard, heard_from};
ghost use Rattle.telnet.specs.TelnetView.{AllFed, IsFed, TelnetFed, TelnetView, all_told, told};

/// The items (RFC 854, "TELNET COMMAND STRUCTURE"): a byte below 255; IAC IAC, which is the data byte 255; IAC with a
/// byte below SB; IAC with WILL, WON'T, DO or DON'T and an option's code; IAC SB up to IAC SE, where IAC and the byte
/// after it are one pair. All but the first two give no data.
pub fn items()
    ensures byte { (b : ℕ) (rest : List ℕ) → b < 255 → data_of (b ∷ rest) ≡ b ∷ data_of rest }
    ensures iac { (rest : List ℕ) → data_of (255 ∷ 255 ∷ rest) ≡ 255 ∷ data_of rest }
    ensures command { (c : ℕ) (rest : List ℕ) → c < 250 → data_of (255 ∷ c ∷ rest) ≡ data_of rest }
    ensures choice { (c code : ℕ) (rest : List ℕ) → 251 ≤ c → c ≤ 254 → data_of (255 ∷ c ∷ code ∷ rest) ≡ data_of rest }
    ensures inside { (body rest : List ℕ) → IsTrue (is_inside body) →
        data_of (255 ∷ 250 ∷ body ++ 255 ∷ 240 ∷ rest) ≡ data_of rest }
{}

/// A text's last item, where it isn't finished, gives no data.
pub fn unfinished_items()
    ensures nothing { data_of [] ≡ [] }
    ensures command { data_of (255 ∷ []) ≡ [] }
    ensures choice { (c : ℕ) → 251 ≤ c → c ≤ 254 → data_of (255 ∷ c ∷ []) ≡ [] }
    ensures inside { (body : List ℕ) → IsTrue (is_inside body) → data_of (255 ∷ 250 ∷ body) ≡ [] }
    ensures pair { (body : List ℕ) → IsTrue (is_inside body) → data_of (255 ∷ 250 ∷ body ++ 255 ∷ []) ≡ [] }
{}

/// Data that are written with each 255 twice are read back.
pub fn doubled_bytes()
    ensures { (text : List ℕ) → data_of (doubled text) ≡ text }
{}

/// A line of bytes other than LF and CR ends at LF, CR LF and CR NUL. A CR before any other byte is dropped. A rest
/// without an end is no line.
pub fn line_ends()
    ensures lf { (line rest : List ℕ) → IsTrue (list_all is_line_byte line) →
        lines_of (line ++ 10 ∷ rest) ≡ line ∷ lines_of rest }
    ensures cr_lf { (line rest : List ℕ) → IsTrue (list_all is_line_byte line) →
        lines_of (line ++ 13 ∷ 10 ∷ rest) ≡ line ∷ lines_of rest }
    ensures cr_nul { (line rest : List ℕ) → IsTrue (list_all is_line_byte line) →
        lines_of (line ++ 13 ∷ 0 ∷ rest) ≡ line ∷ lines_of rest }
    ensures cr { (line rest : List ℕ) (b : ℕ) → IsTrue (list_all is_line_byte line) → b ≢ 10 → b ≢ 0 →
        lines_of (line ++ 13 ∷ b ∷ rest) ≡ lines_of (line ++ b ∷ rest) }
    ensures rest { (line : List ℕ) → IsTrue (list_all is_line_byte line) → lines_of line ≡ [] }
    ensures rest_cr { (line : List ℕ) → IsTrue (list_all is_line_byte line) → lines_of (line ++ 13 ∷ []) ≡ [] }
{}

/// A text without 255 is its own data. Where its lines end at LF and have no CR, they are what is heard.
pub fn plain_texts()
    ensures bytes { (text : List ℕ) → IsTrue (list_all (λ b. not (b == 255)) text) → data_of text ≡ text }
    ensures lines { (lines : List (List ℕ)) (rest : List ℕ)
        → IsTrue (list_all (λ line. list_all (λ b. is_line_byte b && not (b == 255)) line) (rest ∷ lines))
        → lines_heard (flat_map (λ line. line ++ 10 ∷ []) lines ++ rest) ≡ map heard lines }
{}

/// Steps over a whole text tell its lines, from a new reader on or from one that has just told a line.
pub fn whole_texts()
    ensures { (old : TelnetView) (steps : List TelnetFed) → old.pending ≡ [] → AllFed old steps
        → all_told steps ≡ lines_heard (map (λ step. step.byte) steps) }
{}

/// Where the first line of a text ends, in the text as it came. Of steps from a new reader on, or from one that has
/// just told a line, the last and no other tells a line exactly where they have taken the text up to there (`steps`).
/// The front that ends there is the shortest of which a line is heard (`shortest`), and the lines of a text are the
/// first and then those of what follows it (`lines`).
pub fn first_lines()
    ensures steps { (old : TelnetView) (steps : List TelnetFed) (last : TelnetFed) (line : Option (List ℕ)) (rest : List ℕ)
        → old.pending ≡ [] → AllFed old (steps ++ last ∷ [])
        → ((all_told steps ≡ []) × (told last.answer last.after.line ≡ line ∷ []))
        ↔ (first_heard (map (λ step. step.byte) steps ++ last.byte ∷ rest) ≡ Some record { line = line; rest = rest }) }
    ensures shortest { (text : List ℕ) (first : FirstHeard) → (first_heard text ≡ Some first) ↔ IsFirst text first }
    ensures lines { (text : List ℕ) → lines_heard text ≡ heard_from (first_heard text) }
{}
