//! The parts of a row of the Telnet gateway: the dialogue with its client, and the relay behind it.

use crate::texts::place_of;
use format_of_rows::Row;

/// What ends a dialogue behind which a relay follows.
const CONNECTED: &str = "Connected\r\n";

/// What each text of a dialogue ends with behind which a line is heard.
const PROMPTS: &[&str] = &["Username: ", "Password: ", "Response: ", "tn-gw-> "];

/// What is told behind a response that was typed unseen.
const UNSEEN: &[u8] = b"\xff\xfc\x01\r\n";

fn end_of_dialogue(row: &Row) -> usize {
    match place_of(&row.wanted.output, CONNECTED.as_bytes()) {
        Some(at) => at.saturating_add(CONNECTED.len()),
        None => row.wanted.output.len(),
    }
}

/// What the gateway tells the client.
pub(crate) fn dialogue(row: &Row) -> &[u8] {
    let output: &[u8] = &row.wanted.output;
    output.get(..end_of_dialogue(row)).unwrap_or(output)
}

/// What the server tells the client.
pub(crate) fn relayed(row: &Row) -> &[u8] {
    row.wanted.output.get(end_of_dialogue(row)..).unwrap_or(&[])
}

/// Whether a link comes up.
pub(crate) fn is_linked(row: &Row) -> bool {
    0 < row.wanted.called.hung_up
}

/// How many bytes of the client the dialogue hears: where a link comes up, those that its server isn't given.
pub(crate) fn heard(row: &Row) -> u64 {
    let said = row.setting.client.len();
    if is_linked(row) {
        said.saturating_sub(row.wanted.called.given.len()) as u64
    } else {
        said as u64
    }
}

// How many bytes a prompt has with which the text begins.
fn prompt_len(text: &[u8]) -> usize {
    for prompt in PROMPTS {
        if text.starts_with(prompt.as_bytes()) {
            return prompt.len();
        }
    }
    0
}

// Where the prompt of this number ends, counted from 1.
fn end_of_prompt(text: &[u8], number: u64) -> usize {
    let mut found: u64 = 0;
    for at in 0..text.len() {
        let len = prompt_len(text.get(at..).unwrap_or(&[]));
        if 0 < len {
            found = found.saturating_add(1);
            if found == number {
                return at.saturating_add(len);
            }
        }
    }
    text.len()
}

/// What the client is told up to the prompt of this number, counted from 1.
pub(crate) fn up_to_prompt(row: &Row, number: u64) -> &[u8] {
    let told = dialogue(row);
    told.get(..end_of_prompt(told, number)).unwrap_or(told)
}

/// Whether the text ends where a text of the dialogue does behind which it goes on.
pub(crate) fn is_whole(text: &[u8]) -> bool {
    for prompt in PROMPTS {
        if text.ends_with(prompt.as_bytes()) {
            return true;
        }
    }
    text.ends_with(UNSEEN)
}
