//! What holds of all spools.
ghost use Rattle.std.specs.Prelude.{◌≡◌, ℕ, List, [], ◌∷◌};
ghost use Rattle.fw_disk.specs.DiskView.{Tape};
ghost use Rattle.fw_disk.specs.Moments.{EachImage, Since};
ghost use Rattle.spool_law.specs.World.{Letter, World, formatted};
ghost use Rattle.spool_law.specs.Events.{Step, Event, ArePossible, after_all};
ghost use Rattle.spool_law.specs.Images.{IsWhole};
ghost use Rattle.spool_law.specs.Safe.{HasItsMessage, IsSafe};
ghost use Rattle.spool_law.specs.Runs.{Known, Does, IsReached, AreEvents, known_in};

/// Whatever happens to slots that were formatted, each message that was answered for stands or was accepted, and what a
/// crash leaves of a slot is free or a whole message that was begun and finished.
pub fn stands()
    ensures { (events : List Event) → ArePossible events formatted → IsSafe (after_all events formatted) }
{}

/// What a call does to one slot's disk, as steps, are events of the spool. Each medium that the disk had since the call
/// began is where some first of these steps lead, so a crash at that moment is a crash after these.
pub fn calls_are_events()
    ensures events { (steps : List Step) (w : World) (n : ℕ) (old new : Tape) (l : Known) →
        (w.slots n).medium ≡ old.now → Does steps (known_in w n) old l new → AreEvents steps w n old l new }
    ensures moments { (steps : List Step) (k l : Known) (old new : Tape) →
        Does steps k old l new → Since (IsReached steps k old) old new }
{}

/// A slot of which each image is a message, and isn't set aside, has a message whose gate was opened, and each image is this
/// message. So what is handed on of it is the message that was begun there.
pub fn a_whole_slot_has_its_message()
    ensures { (events : List Event) (n : ℕ) → ArePossible events formatted
        → EachImage IsWhole ((after_all events formatted).slots n).medium
        → HasItsMessage ((after_all events formatted).slots n) }
{}

/// The law `stands` is not empty: a message can be begun, written, finished and answered for.
pub fn a_message_can_stand()
    ensures { (events : List Event) × (l : Letter) × ArePossible events formatted ×
        ((after_all events formatted).answered ≡ l ∷ []) }
{}
