ghost use Rattle.std.specs.Prelude.{◌≡◌};
ghost use Rattle.hex.specs.Hex.{encode_lower};
ghost use Rattle.mst_vlan.specs.forest.config.Digest.{digest_of};

use mst_tables::Table;
use mst_vlan::digest;

/// The Configuration Digest of a table in lower case hexadecimal digits.
pub(crate) fn digest_digits(table: &Table) -> [u8; 32]
    ensures { result ≡ encode_lower (digest_of table.now) }
{
    let mut digits = [0; 32];
    match hex::encode_to_slice(&digest(table)[..], &mut digits[..]) {
        Ok(()) => digits,
        Err(_) => unreachable!(),
    }
}
