//! What holds of every session: one table with the same answers gives one list of acts, runs join
//! and part, a run that left a row goes on, and what the rows keep holds of all their runs.
//!
//! Each law is the contract of a function that does nothing. A clause can't range over signatures,
//! so a type names the one that a law speaks of, and the law holds for each such type.

ghost use Rattle.std.specs.Prelude.{◌≡◌, ℕ, List, [], ◌∷◌, ◌++◌, ◌⊎◌, length};
ghost use Rattle.fw_acts.specs.Acts.{Sig, Step, Row, PlaceTable};
ghost use Rattle.fw_acts.specs.Acts.Row.{Over};
ghost use Rattle.fw_acts.specs.Runs.{Run, Next, DoesAll, Parted, DoesParted};
ghost use Rattle.fw_acts.specs.Fronts.{IsAnsweredBy, Agree, OneGoesOn, IsSettled, Longer};
ghost use Rattle.fw_acts.specs.Projections.{projection};
ghost use Rattle.fw_acts.specs.Histories.{Watch, Keeps, Leaves, history};

/// A type that names the acts of a kind of session.
pub trait Signature {
    /// The acts, what each is answered, what it does to the world, and for which causes it stops.
    ghost acts: { Sig };
}

/// A type that names what is watched over the runs of a kind of session.
pub trait Watcher {
    /// Where such a session waits.
    type Place;

    /// The acts of the session.
    ghost acts: { Sig };

    /// What is noted of each act, which act may come next, and what holds at each place.
    ghost watch: { Watch acts Self.Place };
}

/// One table with the same answers gives one list of acts: of two runs of a row one is a front of
/// the other, which goes on from the row that the first one left. The answers are the same where
/// both runs have one answerer (`answered`), or where each act that both did in one position was
/// answered the same (`agreed`).
pub fn one_list<S: Signature, P>()
    ensures answered { (answers : List (Step S.acts) → (act : S.acts.Act) → S.acts.Answer act)
        (rows : PlaceTable S.acts P) (r s t : Row S.acts P) (a b : List (Step S.acts))
        → Run rows r a s → IsAnsweredBy answers [] a
        → Run rows r b t → IsAnsweredBy answers [] b
        → OneGoesOn rows a s b t }
    ensures agreed { (rows : PlaceTable S.acts P) (r s t : Row S.acts P) (a b : List (Step S.acts))
        → Run rows r a s → Run rows r b t → Agree a b
        → OneGoesOn rows a s b t }
{}

/// A run from one row to another and a run on from there are one run, of which the first is a
/// front, and a run of acts and then others parts into two. So does what the acts do to the world.
pub fn runs_join<S: Signature, P>()
    ensures run { (rows : PlaceTable S.acts P) (r s t : Row S.acts P) (first more : List (Step S.acts))
        → Run rows r first s → Run rows s more t → Run rows r (first ++ more) t }
    ensures parted { (rows : PlaceTable S.acts P) (r t : Row S.acts P) (first more : List (Step S.acts))
        → Run rows r (first ++ more) t → Parted rows r first more t }
    ensures does { (old mid new : S.acts.World) (first more : List (Step S.acts))
        → DoesAll first old mid → DoesAll more mid new → DoesAll (first ++ more) old new }
    ensures does_parted { (old new : S.acts.World) (first more : List (Step S.acts))
        → DoesAll (first ++ more) old new → DoesParted first more old new }
{}

/// A run that stopped with a row left is a front of a longer one, which goes on from that row with
/// any answers: to the next place or the end (`settles`), and on for as many acts as one likes, or
/// until the session is over (`lasts`). Then nothing more is done (`over`).
pub fn runs_go_on<S: Signature, P>()
    ensures settles { (answers : List (Step S.acts) → (act : S.acts.Act) → S.acts.Answer act)
        (rows : PlaceTable S.acts P) (r s : Row S.acts P) (first : List (Step S.acts))
        → Run rows r first s
        → Longer answers rows r first s (λ more left. IsSettled left) }
    ensures lasts { (answers : List (Step S.acts) → (act : S.acts.Act) → S.acts.Answer act)
        (rows : PlaceTable S.acts P) (r s : Row S.acts P) (first : List (Step S.acts)) (count : ℕ)
        → Run rows r first s
        → Longer answers rows r first s (λ more left. (length more ≡ count) ⊎ (left ≡ Over)) }
    ensures over { (rows : PlaceTable S.acts P) (steps : List (Step S.acts)) (t : Row S.acts P)
        → Run rows Over steps t → (steps ≡ []) × (t ≡ Over) }
{}

/// What acts give that are done one after another is what the first ones give, and then what the
/// others give.
pub fn projections_join<S: Signature, A>()
    ensures { (gives : (act : S.acts.Act) → S.acts.Answer act → List A) (first more : List (Step S.acts))
        → projection gives (first ++ more) ≡ projection gives first ++ projection gives more }
{}

/// What the rows keep holds of every run: at the row that it left, before each of its acts, and
/// before the act at which it stopped.
pub fn rows_keep<W: Watcher>()
    ensures leaves { (rows : PlaceTable W.acts W.Place) → Keeps rows W.watch
        → (r s : Row W.acts W.Place) (noted : W.watch.Noted) (steps : List (Step W.acts))
        → Leaves W.watch r noted → Run rows r steps s
        → Leaves W.watch s (history W.watch noted steps) }
    ensures each { (rows : PlaceTable W.acts W.Place) → Keeps rows W.watch
        → (r s : Row W.acts W.Place) (noted : W.watch.Noted)
        → (first : List (Step W.acts)) (step : Step W.acts) (more : List (Step W.acts))
        → Leaves W.watch r noted → Run rows r (first ++ (step ∷ more)) s
        → W.watch.may (history W.watch noted first) step.act }
    ensures next { (rows : PlaceTable W.acts W.Place) → Keeps rows W.watch
        → (r s : Row W.acts W.Place) (noted : W.watch.Noted)
        → (steps : List (Step W.acts)) (act : W.acts.Act)
        → Leaves W.watch r noted → Run rows r steps s → Next rows s act
        → W.watch.may (history W.watch noted steps) act }
{}
