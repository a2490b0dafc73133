//! What holds of all replies and requests, and their lines.
ghost use Rattle.std.specs.Prelude.{◌≡◌, List, ℕ, IsTrue, Option, Some, Ok};
ghost use Rattle.auth_events.specs.declared.reply.Reply.{Reply};
ghost use Rattle.auth_events.specs.declared.request.Request.{Request};
ghost use Rattle.authsrv_lines.specs.Request.{request_of};
ghost use Rattle.authsrv_lines.specs.RequestLine.{IsAsked, request_line, wire_of};
ghost use Rattle.authsrv_lines.specs.Reply.{ReadsReply, IsReply, is_whole, reply_line};

/// What `read_reply` answers is the reply that `reply_text` wrote, and what it reads is what `reply_text` writes of
/// some reply; no two replies have one text. Each but for the answer to an Open.
pub fn inverse()
    ensures written_is_read { (reply : Reply) (answer : Option Reply) → IsReply reply → IsTrue (is_whole reply) →
        ReadsReply (reply_line reply) answer → answer ≡ Some reply }
    ensures read_is_written { (line : List ℕ) (reply : Reply) → ReadsReply line (Some reply) → reply_line reply ≡ line }
    ensures one_reply { (first second : Reply) → IsReply first → IsReply second → IsTrue (is_whole first) →
        IsTrue (is_whole second) → reply_line first ≡ reply_line second → first ≡ second }
{}

/// What `read_request` makes of the line that `wire_text` writes of a request is that request, and of the line for `Close`
/// the end of the session.
pub fn asked_again()
    ensures { (request : Request) (line : List ℕ) → IsAsked request → request_line request ≡ Some line →
        request_of line ≡ Ok (wire_of request) }
{}
