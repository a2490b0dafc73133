//! What the definitions of `specs/` come to. Each function states laws and does nothing.
ghost use Rattle.std.specs.Prelude.{◌≡◌, ℕ, List};
ghost use Rattle.auth_events.specs.declared.reply.Reply.{Reply};
ghost use Rattle.auth_events.specs.declared.request.Request.{Request};
ghost use Rattle.remote_port.specs.Answers.{IsAnswer};
ghost use Rattle.remote_port.specs.Texts.{AreLines};

use authsrv_lines::laws;

/// A line answers a request by one reply at most.
pub fn one_answer()
    ensures { (request : Request) (place : ℕ) (line : List ℕ) (first second : Reply) → IsAnswer request place line first →
        IsAnswer request place line second → first ≡ second }
{
    laws::inverse();
}

/// A text is some lines with their ends in one way.
pub fn one_cut()
    ensures { (lines others : List (List ℕ)) (text : List ℕ) → AreLines lines text → AreLines others text → lines ≡ others }
{}
