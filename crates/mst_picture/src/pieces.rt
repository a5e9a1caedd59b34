ghost use Rattle.std.specs.Prelude.{◌≡◌, ◌++◌, map, OnOk};
ghost use Rattle.mst_picture.specs.Pieces.{joined};

use mst_ids::push_bytes;
use std::alloc::AllocError;

/// Appends these pieces.
pub(crate) fn push_pieces(pieces: &[&[u8]], out: &mut Vec<u8>) -> Result<(), AllocError>
    ensures { OnOk result (out.new.items ≡ out.old.items ++ joined (map (λ piece. piece.now) pieces.now)) }
{
    for piece in pieces {
        push_bytes(*piece, out)?;
    }
    Ok(())
}
