//! The form in which a session is stated: which acts it does, in which order, and where it stops.
//!
//! A session says words, takes lines, asks a server, writes log lines. `Sig` has these acts, with
//! what each is answered, what it does to the world, and for which causes it may stop. The acts
//! that follow one another are a `Row`, a finite tree that branches by the answers and ends at a
//! place, where the session waits, or where it is over. A `PlaceTable` has the row of each place. So
//! a row of a definition reads as the dialogue does:
//!
//! ```text
//! name_row name = Do (Ask name) (λ known. Do (Say (welcome known)) (λ x. At (guest known)))
//! ```
//!
//! A call of a session ensures `Ran rows r at old new result`: from the row `r` it did the acts of
//! the table up to the row that its answer tells, or it stopped at one act, for a cause of that
//! act. What holds of all runs of a table, such as that no call is made before its log line, is
//! shown of its rows alone by `Keeps`. Once each act is shown to give its share by `Grows`, and its
//! part where it stops by `Cuts`, what the world was given is the `projection` of the acts done, and
//! after a stop a front of what they give.
//!
//! # How a session is proved
//!
//! A trait with a ghost member, the world, has one method an act: its clauses are `does` where it
//! answers `Ok` and `stops` where it answers `Err`. Each row is one function, whose clause is `Ran`.
//! The check follows its body by a lemma for each act and kind of answer, whose premise is what the
//! method ensures there, as an equation of worlds or a record:
//!
//! ```text
//! said : .. → mid ≡ record old { client = given old.client bytes }
//!     → Ran rows (go tt) at mid new result → Ran rows (Do (Say bytes) go) at old new result
//! said done rest = ran_did tt done rest
//! ```
//!
//! A ruleset of these lemmas and `ran_here` stands in the crate's `tactic(auto, using(..))`. A loop
//! keeps `Ran` from the beginning to `At place`; a turn is added by `ran_then` and `ran_as`, and a
//! stop that `?` hands on by `ran_on`.
//!
//! The crate knows no device and has no code that runs: its contracts are the laws of this form,
//! in the module `laws`.
#![tactic(auto)]

pub mod laws;
