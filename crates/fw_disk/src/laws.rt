//! What holds of all media and all disks.
ghost use Rattle.std.specs.Prelude.{◌≡◌, ◌<◌, ◌≤◌, ℕ, List, length, set};
ghost use Rattle.fw_disk.specs.Medium.{Medium, IsImage, settled, written_at, cut_at};
ghost use Rattle.fw_disk.specs.Laws.{AreBytes, IsLoose};

/// After a sync the bytes as read are the only image.
pub fn a_sync_leaves_one_image()
    ensures is { (bytes : List ℕ) → AreBytes bytes → IsImage (settled bytes) bytes }
    ensures only { (bytes image : List ℕ) → IsImage (settled bytes) image → image ≡ bytes }
{}

/// Where the bytes as read are an image, they are one after each change.
pub fn the_bytes_as_read_are_an_image()
    ensures written { (m : Medium) (at : ℕ) (bytes : List ℕ) → AreBytes bytes → at ≤ length m.seen →
        IsImage m m.seen → IsImage (written_at at bytes m) (written_at at bytes m).seen }
    ensures cut { (m : Medium) (len : ℕ) → len ≤ length m.seen →
        IsImage m m.seen → IsImage (cut_at len m) (cut_at len m).seen }
{}

/// An image before a change is one after it: what was done last may be lost.
pub fn a_change_may_be_lost()
    ensures written { (m : Medium) (at : ℕ) (bytes image : List ℕ) → IsImage m image →
        IsImage (written_at at bytes m) image }
    ensures cut { (m : Medium) (len : ℕ) (image : List ℕ) → IsImage m image → IsImage (cut_at len m) image }
{}

/// In an image a byte at the least length or past it, or in a range written since the sync, may be any.
pub fn a_loose_byte_is_any()
    ensures { (m : Medium) (image : List ℕ) (place byte : ℕ) → IsImage m image → IsLoose m place → byte < 256 →
        IsImage m (set image place byte) }
{}
