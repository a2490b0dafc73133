//! What the lines that are heard one after another come to. Each function states laws and does nothing.
ghost use Rattle.std.specs.Prelude.{◌≡◌, ℕ, List, [], ◌++◌};
ghost use Rattle.std.specs.List.{concat, flat_map};
ghost use Rattle.fw_outside.specs.declared.heard.Heard.{Heard};
ghost use Rattle.fw_outside.specs.declared.heard.Heard.TheVariants.{Stopped};
ghost use Rattle.fw_outside.specs.declared.heard.Stop.{Stop};
ghost use Rattle.telnet.specs.Lines.{lines_heard};
ghost use Rattle.telnet_hearing.specs.Hearing.{AreLines, IsHeardTelnet, line_of};

/// Pieces of a client's text that are heard as lines, one after another, are heard as the lines of the text, and then come
/// the lines of what follows (`lines`). Where a piece is heard as no line, it has none (`rest`).
pub fn whole_texts()
    ensures lines { (heards : List Heard) (pieces : List (List ℕ)) (rest : List ℕ) → AreLines heards pieces →
        lines_heard (concat pieces ++ rest) ≡ flat_map line_of heards ++ lines_heard rest }
    ensures rest { (stop : Stop) (piece : List ℕ) → IsHeardTelnet (Stopped stop) piece → lines_heard piece ≡ [] }
{}
