//! What holds of every port, and when a login stands.
ghost use Rattle.std.specs.Prelude.{◌≡◌, ◌≢◌, ◌↔◌, ℕ, List, [], ◌∷◌, ◌++◌, Result, true};
ghost use Rattle.fw_outside.specs.Counts.{Grew};
ghost use Rattle.auth_events.specs.Login.{HasLogin, login_in, login_stands, login_then, said_by};
ghost use Rattle.auth_events.specs.Port.{ArePlaces, Asks, Port, Stays};
ghost use Rattle.auth_events.specs.declared.entry.Entry.{Entry};
ghost use Rattle.auth_events.specs.declared.port.PortFault.{PortFault};
ghost use Rattle.auth_events.specs.declared.reply.Reply.{Reply};
ghost use Rattle.auth_events.specs.declared.request.Request.{Request};

/// Whatever a request is answered, the port's own places go on rising and being places of the history that it has seen
/// (`places`), one more request was counted (`counted`), and a limit that was reached stays that limit (`limit`).
pub fn asking_goes_on<Origin>()
    ensures places { (answer : Result Reply PortFault) (sid at : ℕ) (request : Request) (old new : Port Origin) →
        Asks answer sid at request old new → ArePlaces old.seen old.mine → ArePlaces new.seen new.mine }
    ensures counted { (answer : Result Reply PortFault) (sid at : ℕ) (request : Request) (old new : Port Origin) →
        Asks answer sid at request old new → Grew 1 old.asks new.asks }
    ensures limit { (answer : Result Reply PortFault) (sid at : ℕ) (request : Request) (old new : Port Origin) →
        Asks answer sid at request old new → Stays old.full new.full }
{}

/// A login stands in what a session has said exactly if something there gave one, behind which nothing ends it (`is`).
/// What is said next gives one, or ends it, or leaves it as it was (`later`).
pub fn a_login_stands()
    ensures is { (talk : List (Request × Reply)) → (login_in talk ≡ true) ↔ HasLogin talk }
    ensures later { (talk : List (Request × Reply)) (said : Request × Reply) →
        login_in (talk ++ said ∷ []) ≡ login_then (login_in talk) said }
{}

/// Of a history, only the session's own entries give its login and end it.
pub fn the_login_of_a_session()
    ensures own { (sid : ℕ) (history : List Entry) (entry : Entry) → entry.sid ≡ sid →
        login_stands sid (history ++ entry ∷ []) ≡ login_then (login_stands sid history) (said_by entry) }
    ensures others { (sid : ℕ) (history : List Entry) (entry : Entry) → entry.sid ≢ sid →
        login_stands sid (history ++ entry ∷ []) ≡ login_stands sid history }
{}
