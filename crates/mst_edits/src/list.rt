ghost use Rattle.std.specs.Prelude.{◌≡◌, ◌++◌, ◌∷◌, [], OnOk, if◌then◌else◌};

use std::alloc::AllocError;

/// Adds an item where a test holds.
pub(crate) fn push_when<T: Copy>(test: bool, item: &T, list: &mut Vec<T>) -> Result<(), AllocError>
    ensures { OnOk result (list.new.items ≡ list.old.items ++ (if test then item.now ∷ [] else [])) }
{
    if test {
        list.push(*item)?;
    }
    Ok(())
}
