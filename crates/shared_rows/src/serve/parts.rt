//! What the clients of the scenes say, and what is a mark to them.
use crate::serve::devices::{Marks, Script};
use crate::serve::door::Asked;

/// Which service a client asks, what he says, and what is a mark to him.
#[derive(Clone, Copy)]
pub(crate) struct Part {
    pub(crate) asked: Asked,
    pub(crate) script: Script,
    pub(crate) marks: Marks,
}

const READY: &[u8] = b"authsrv ready";

/// Each of two goes once both were greeted.
pub(crate) const BOTH_GREETED: [Part; 2] = [GREETED; 2];

const GREETED: Part = Part {
    asked: Asked::Auth,
    script: &[(2, b"quit\r\n")],
    marks: &[READY],
};

/// A user and eight who attack him. Once all nine were greeted he asks for his password; then the others say wrong ones; and once
/// all of them have to wait he says the right one.
pub(crate) const ATTACK: [Part; 9] = [
    USER, ATTACKER, ATTACKER, ATTACKER, ATTACKER, ATTACKER, ATTACKER, ATTACKER, ATTACKER,
];

const USER: Part = Part {
    asked: Asked::Auth,
    script: &[
        (9, b"authenticate mjr\r\n"),
        (18, b"response secret\r\nquit\r\n"),
    ],
    marks: &[READY, b"password"],
};

const WRONG: &[u8] = b"authenticate mjr\r\nresponse x\r\n";

const ATTACKER: Part = Part {
    asked: Asked::Auth,
    script: &[
        (10, WRONG),
        (0, WRONG),
        (0, WRONG),
        (0, WRONG),
        (0, WRONG),
        (0, WRONG),
        (0, b"quit\r\n"),
    ],
    marks: &[READY, b"denied sleeping"],
};

/// Eight who say the one password that is left, once all of them were greeted.
pub(crate) const ONE_WORD: [Part; 8] = [SPENDER; 8];

const SPENDER: Part = Part {
    asked: Asked::Auth,
    script: &[(
        8,
        b"authenticate otp1\r\nresponse 9E87 6134 D904 99DD\r\nquit\r\n",
    )],
    marks: &[READY],
};

/// Each of two hands in one message, once both were greeted. Four marks are told.
pub(crate) const TWO_LETTERS: [Part; 2] = [SENDER; 2];

const SENDER: Part = Part {
    asked: Asked::Mail,
    script: &[
        (
            2,
            b"HELO relay.tis.com\r\nMAIL FROM:<mjr@tis.com>\r\nRCPT TO:<avolio@example.org>\r\n",
        ),
        (0, b"DATA\r\nSubject: x\r\n\r\nHello.\r\n.\r\nQUIT\r\n"),
    ],
    marks: &[b"220 ", b"221 "],
};
