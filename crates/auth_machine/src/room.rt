//! Room for one more.
ghost use Rattle.std.specs.Prelude.{◌≡◌, ◌<◌, OnOk, vec_len};
ghost use Rattle.std.specs.Vec.{vec_capacity};

use fw_types::NoMemory;

// How many more there is room for at once where there is no memory for twice as many.
const FEW: usize = 1024;

/// Makes room for one more. A list that grows takes twice as much as it has; where there is no memory for that it takes
/// a little more, and then just what one more takes.
pub(crate) fn make_room<T>(items: &mut Vec<T>) -> Result<(), NoMemory>
    ensures same { items.new.items ≡ items.old.items }
    ensures room { OnOk result (vec_len items.new < vec_capacity items.new) }
{
    if items.reserve(1).is_ok() {
        return Ok(());
    }
    if items.reserve_exact(FEW).is_ok() {
        return Ok(());
    }
    items.reserve_exact(1)?;
    Ok(())
}
