//! What the definitions of `specs/` come to. Each function states one law and does nothing.
ghost use Rattle.std.specs.Prelude.{◌≡◌, ℕ, ◌<◌, ◌==◌, List, [], ◌∷◌, ◌++◌, drop, length, false, All, Some, Ok, Err};
ghost use Rattle.std.specs.List.{filter_map};
ghost use Rattle.netperm_table.specs.declared.line.Line.{Line};
ghost use Rattle.netperm_table.specs.declared.table_fault.TableFault.{TableFault};
ghost use Rattle.netperm_table.specs.declared.table_fault.TableFault.TheVariants.{LongLine};
ghost use Rattle.netperm_table.specs.Reading.{reading};
ghost use Rattle.netperm_table.specs.Table.{fault_in, line_in, pieces, table_of, unless_any_fault};
ghost use Rattle.netperm_table.specs.Taking.{Settles};
ghost use Rattle.netperm_table.specs.Words.{words_after, words_of};

/// A table has the lines of those pieces of the text that pass the tests and aren't skipped; or it is the fault of the
/// first piece that fails one.
pub fn the_lines_are_the_pieces_that_pass()
    ensures { (text : List ℕ) → table_of text
        ≡ unless_any_fault (filter_map fault_in (pieces text)) (filter_map line_in (pieces text)) }
{}

/// The words that begin after so many bytes are the words of the bytes that are left.
pub fn the_words_after_bytes_are_those_of_the_rest()
    ensures { (n : ℕ) (bytes : List ℕ) → words_after n bytes ≡ words_of (drop n bytes) }
{}

/// A line has the number of its piece.
pub fn a_line_has_the_number_of_its_piece()
    ensures { (number : ℕ) (bytes : List ℕ) (line : Line) → reading number bytes ≡ Ok (Some line) →
        line.number ≡ number }
{}

/// The fault of a line that ended is settled: nothing that follows it changes it.
pub fn a_line_that_ended_settles_its_fault()
    ensures { (text : List ℕ) (fault : TableFault) → table_of (text ++ 10 ∷ []) ≡ Err fault
        → Settles (text ++ 10 ∷ []) fault }
{}

/// A line settles a fault at the latest with its 2,050th byte, whether it ends or not.
pub fn a_long_line_settles_a_fault()
    ensures first { (line : List ℕ) → All (λ b. (b == 10) ≡ false) line → 2049 < length line →
        Settles line (LongLine 1) }
    ensures later { (text line : List ℕ) (before : List Line) → table_of (text ++ 10 ∷ []) ≡ Ok before →
        All (λ b. (b == 10) ≡ false) line → 2049 < length line
        → (fault : TableFault) × Settles ((text ++ 10 ∷ []) ++ line) fault }
{}
