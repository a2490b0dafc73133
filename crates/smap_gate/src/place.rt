use fw_types::OctetsList;
use smap_lines::Path;

/// Where a session waits for a line of its client.
#[derive(Drop)]
pub enum Place {
    /// No sender stands.
    Waiting,
    /// This sender stands, and these recipients.
    Mailing { sender: Path, rcpts: OctetsList },
}
