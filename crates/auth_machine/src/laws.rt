//! What holds of every history. Each function states laws and does nothing.
ghost use Rattle.std.specs.Prelude.{◌≡◌, ℕ, suc, ◌+◌, max, ◌∷◌, ◌++◌, [], List, length, Option, Some, None, true, false, IfSome};
ghost use Rattle.std.specs.List.{AllByRecursion};
ghost use Rattle.std.specs.Str.{bytes_eq};
ghost use Rattle.fw_types.specs.Keyed.{Ascends};
ghost use Rattle.auth_records.specs.Spelling.{Fields, OtpFields};
ghost use Rattle.auth_events.specs.Fits.{Fits};
ghost use Rattle.auth_events.specs.declared.denial.Denial.TheVariants as denials;
ghost use Rattle.auth_events.specs.declared.entry.Entry.{Entry};
ghost use Rattle.auth_events.specs.declared.reply.Reply.TheVariants as replies;
ghost use Rattle.auth_events.specs.declared.reply.Summary.{Summary};
ghost use Rattle.auth_events.specs.declared.request.Request.TheVariants as requests;
ghost use Rattle.auth_machine.specs.Answer.{summary_profile};
ghost use Rattle.auth_machine.specs.History.{IsLegal, IsStep, Origin, after};
ghost use Rattle.auth_machine.specs.Laws.{HasRankOf, IsGroupWizard, IsNewcomer, IsOutOfReach, SaysIfKept, ShowsLeast, ShowsNone};
ghost use Rattle.auth_machine.specs.Logins.{ExtendsNone, FreesNone, HasExpiryOf, HasLockOf, IsDenied, IsExpiryDenial, IsLockDenial, IsLocked, LoginStands, SomeLoginStands, phase_of, tries};
ghost use Rattle.auth_machine.specs.Chains.{AreLeft, IsAcceptance, Lowers, SetsNone, accepted, later_word, otp_in_record};
ghost use Rattle.auth_machine.specs.Login.{has_expired};
ghost use Rattle.auth_machine.specs.State.{record_name, record_at};
ghost use Rattle.auth_machine.specs.declared.session.Phase.TheVariants.{In};

/// The records stand in the order of their names, each name once, where those that were loaded do.
pub fn names_stay_in_order()
    ensures { (origin : Origin) (history : List Entry) → Ascends record_name origin.records → IsLegal origin history
        → Ascends record_name (after origin history).records }
{}

/// What `List` shows is the least record of those that come after the name and that the session's power shows; where it
/// finds no such record, there is none.
pub fn the_least_is_listed()
    ensures least { (origin : Origin) (before : List Entry) (entry : Entry) (told : Option (List ℕ)) (summary : Summary)
        → Ascends record_name origin.records → IsLegal origin (before ++ entry ∷ []) →
        entry.request ≡ requests.List told
        → entry.reply ≡ replies.Shown summary →
        ShowsLeast (after origin before) entry.sid told (summary_profile summary) }
    ensures none { (origin : Origin) (before : List Entry) (entry : Entry) (told : Option (List ℕ))
        → Ascends record_name origin.records → IsLegal origin (before ++ entry ∷ []) →
        entry.request ≡ requests.List told
        → entry.reply ≡ replies.Denied denials.NoSuch → ShowsNone (after origin before) entry.sid told }
{}

/// A session is logged in as a user exactly where the entries alone say so. Each response that is answered Ok logs
/// somebody in (`is_someone`).
pub fn login_stands()
    ensures is_said { (origin : Origin) (history : List Entry) (sid : ℕ) (name : List ℕ) → IsLegal origin history
        → phase_of sid (after origin history) ≡ Some (In name) → LoginStands sid name history }
    ensures is_so { (origin : Origin) (history : List Entry) (sid : ℕ) (name : List ℕ) → IsLegal origin history
        → LoginStands sid name history → phase_of sid (after origin history) ≡ Some (In name) }
    ensures is_someone { (origin : Origin) (history : List Entry) (sid : ℕ) → IsLegal origin history
        → SomeLoginStands sid history → (name : List ℕ) × LoginStands sid name history }
{}

/// While no new ones are set for a user, the one-time passwords that are accepted go down the chain from the one that
/// was kept, and there are no more than were left then (`go_down`). Each acceptance lowers the number by one
/// (`lowers`), and nothing else changes it (`counted`), so each has a number of its own. As numbers of 64 bits two of
/// them are the same only where the chain runs into a cycle there (`once`).
pub fn words_are_used_once()
    ensures lowers { (origin : Origin) (before : List Entry) (entry : Entry) (name : List ℕ) →
        IsLegal origin (before ++ entry ∷ [])
        → IsAcceptance name (after origin before) entry
        → Lowers entry.request (otp_in_record (record_at name (after origin before).records)) (otp_in_record (record_at
        name (after origin (before ++ entry ∷ [])).records)) }
    ensures go_down { (origin : Origin) (before during : List Entry) (name : List ℕ) →
        IsLegal origin (before ++ during) → SetsNone name during
        → AreLeft (otp_in_record (record_at name (after origin before).records)) (accepted origin.policy name (after
        origin before) (length before) during) }
    ensures counted { (origin : Origin) (before during : List Entry) (name : List ℕ) (old new : OtpFields) →
        IsLegal origin (before ++ during) → SetsNone name during
        → otp_in_record (record_at name (after origin before).records) ≡ Some old →
        otp_in_record (record_at name (after origin (before ++ during)).records) ≡ Some new
        → new.number + length (accepted origin.policy name (after origin before) (length before) during) ≡ old.number }
    ensures once { (origin : Origin) (before during : List Entry) (name : List ℕ) → IsLegal origin (before ++ during) →
        SetsNone name during
        → (first between rest : List ℕ) (word : ℕ)
        → accepted origin.policy name (after origin before) (length before) during ≡ first ++ (word ∷ (between ++ (word
        ∷ rest)))
        → later_word (suc (length between)) word ≡ word }
{}

/// While a record is locked, and no wizard enables or deletes the user, each try to log in as the user is denied, the
/// right password too, by the lock or since the record has expired as well, and the lock stays as it is: whatever else
/// is changed of the record, it is neither longer nor shorter.
pub fn a_lock_holds()
    ensures denied { (origin : Origin) (before during : List Entry) (entry : Entry) (name : List ℕ) (f : Fields)
        → IsLegal origin (before ++ (during ++ entry ∷ [])) → record_at name (after origin before).records ≡ Some f
        → IsLocked origin.policy (max (after origin (before ++ during)).moment entry.at) f → FreesNone name during
        → tries name (phase_of entry.sid (after origin (before ++ during))) entry.request ≡ true
        → IsDenied (IsLockDenial origin.policy.bad_sleep f.since (max (after origin (before ++ during)).moment
        entry.at)) entry.reply }
    ensures stays { (origin : Origin) (before during : List Entry) (name : List ℕ) (f : Fields)
        → IsLegal origin (before ++ during) → record_at name (after origin before).records ≡ Some f
        → IsLocked origin.policy (after origin (before ++ during)).moment f → FreesNone name during
        → HasLockOf f name (after origin (before ++ during)).records }
{}

/// Once a record has expired, and while no wizard says anew when it does or deletes the user, each try to log in as the
/// user is denied, the right password too, and the moment of its expiry stays.
pub fn an_expiry_holds()
    ensures denied { (origin : Origin) (before during : List Entry) (entry : Entry) (name : List ℕ) (f : Fields)
        → IsLegal origin (before ++ (during ++ entry ∷ [])) → record_at name (after origin before).records ≡ Some f
        → has_expired (max (after origin (before ++ during)).moment entry.at) f ≡ true → ExtendsNone name during
        → tries name (phase_of entry.sid (after origin (before ++ during))) entry.request ≡ true
        → IsDenied (IsExpiryDenial f.expires) entry.reply }
    ensures stays { (origin : Origin) (before during : List Entry) (name : List ℕ) (f : Fields)
        → IsLegal origin (before ++ during) → record_at name (after origin before).records ≡ Some f
        → ExtendsNone name during → HasExpiryOf f name (after origin (before ++ during)).records }
{}

/// What the wizard of a group asks for, whatever it is, leaves every record as it is but the wizard's own and those of
/// the group's users who are no wizards over all (`others`); who is new is in the group, is no wizard and can't log in
/// yet (`new_ones`); and nobody's rank or group changes, not even the wizard's own (`ranks`).
pub fn group_wizards_stay_in_their_group()
    ensures others { (origin : Origin) (before : List Entry) (entry : Entry) (user name : List ℕ) (group : Option (List
        ℕ)) (f : Fields)
        → IsLegal origin (before ++ entry ∷ []) → IsGroupWizard (after origin before) entry.sid user group
        → record_at name (after origin before).records ≡ Some f → bytes_eq name user ≡ false → IsOutOfReach group f
        → record_at name (after origin (before ++ entry ∷ [])).records ≡ Some f }
    ensures new_ones { (origin : Origin) (before : List Entry) (entry : Entry) (user name : List ℕ) (group : Option
        (List ℕ))
        → IsLegal origin (before ++ entry ∷ []) → IsGroupWizard (after origin before) entry.sid user group
        → record_at name (after origin before).records ≡ None
        → IfSome (record_at name (after origin (before ++ entry ∷ [])).records) (IsNewcomer group) }
    ensures ranks { (origin : Origin) (before : List Entry) (entry : Entry) (user name : List ℕ) (group : Option (List
        ℕ)) (f : Fields)
        → IsLegal origin (before ++ entry ∷ []) → IsGroupWizard (after origin before) entry.sid user group
        → record_at name (after origin before).records ≡ Some f
        → IfSome (record_at name (after origin (before ++ entry ∷ [])).records) (HasRankOf f) }
{}

/// No entry of a history says that the history is full, and an entry says that it wasn't kept exactly where it wasn't.
pub fn entries_say_if_kept()
    ensures { (origin : Origin) (history : List Entry) → IsLegal origin history → AllByRecursion SaysIfKept history }
{}

/// The last entry of a legal history is a step of the machine after those before it (`is_step`), and its reply fits its
/// request (`fits`).
pub fn the_last_entry_is_a_step()
    ensures is_step { (origin : Origin) (before : List Entry) (entry : Entry) → IsLegal origin (before ++ entry ∷ [])
        → IsStep origin.policy (after origin before) (length before) entry }
    ensures fits { (origin : Origin) (before : List Entry) (entry : Entry) → IsLegal origin (before ++ entry ∷ [])
        → Fits entry.request (length before) entry.reply }
{}

/// A front of a legal history is legal.
pub fn a_front_is_legal()
    ensures { (origin : Origin) (front more : List Entry) → IsLegal origin (front ++ more) → IsLegal origin front }
{}
