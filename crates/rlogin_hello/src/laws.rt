//! What the definitions of `specs/` come to. Each function states laws and does nothing.
ghost use Rattle.std.specs.Prelude.{◌≡◌, ◌↔◌, ℕ, List, [], ◌∷◌, ◌++◌, Some, None};
ghost use Rattle.rlogin_hello.specs.Hello.{HelloText, NoHello, Unended, Whole, hello_of};
ghost use Rattle.rlogin_hello.specs.HelloForm.{IsHello, ShowsNoHello};
ghost use Rattle.rlogin_hello.specs.ServerUser.{NamesUser, UserAt, user_at};

/// A text names a user at a host exactly where it is NAME@HOST with a name that isn't empty, and a host alone after the
/// last `@`.
pub fn server_users()
    ensures { (text : List ℕ) (at : UserAt) → (user_at text ≡ Some at) ↔ NamesUser text at }
{}

/// The texts that begin with a hello are those four texts, each ended by a zero byte, and any bytes after them. It is
/// whole with its last byte. No hello begins a text exactly where the text shows one of five faults. Whatever follows,
/// a hello stays the same, and what shows that there is none goes on to show it.
pub fn hellos()
    ensures whole { (text : List ℕ) (hello : HelloText) → (hello_of text ≡ Whole hello) ↔ IsHello text hello }
    ensures none { (text : List ℕ) → (hello_of text ≡ NoHello) ↔ ShowsNoHello text }
    ensures stays { (text more : List ℕ) (hello : HelloText) → hello_of text ≡ Whole hello
        → hello_of (text ++ more) ≡ Whole record {
          client = hello.client;
          user = hello.user;
          host = hello.host;
          terminal = hello.terminal;
          rest = hello.rest ++ more;
        } }
    ensures stays_none { (text more : List ℕ) → hello_of text ≡ NoHello → hello_of (text ++ more) ≡ NoHello }
    ensures prompt { (text : List ℕ) (byte : ℕ) (hello : HelloText) → hello_of text ≡ Unended
        → hello_of (text ++ byte ∷ []) ≡ Whole hello → hello.rest ≡ [] }
{}
