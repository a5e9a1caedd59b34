ghost use Rattle.std.specs.Prelude.{◌≡◌, ◌++◌, ◌∷◌, [], List, IfOk, OnOk};
ghost use Rattle.hex.specs.Hex.{encode_lower};
ghost use Rattle.md5.specs.Md5.{md5};
ghost use Rattle.mst_rows.specs.Rows.{Row};
ghost use Rattle.mst_edits.specs.Digest.{digest_row, digits_row};
ghost use Rattle.mst_edits.specs.SaveText.{save_text};

use crate::save::put_saved;
use md5::{Digest, Md5};
use mst_kinds::{Kind, SummaryLine};
use mst_net::Saved;
use mst_rows::{Rows, Value, put};
use std::alloc::{AllocError, Global};

/// The text that saves a network.
fn text_of<C: Saved>(alloc: Global, contents: &C) -> Result<Vec<u8>, AllocError>
    ensures { IfOk result (λ text. text.items ≡ save_text (C.tables contents.now).net) }
{
    let mut text = Vec::new(alloc);
    put_saved::<C, Vec<u8>>(alloc, contents, &mut text)?;
    Ok(text)
}

/// The MD5 of bytes in lower case hexadecimal digits.
fn digits_of(text: &[u8]) -> [u8; 32]
    ensures { result ≡ encode_lower (md5 text.now) }
{
    let mut digits = [0; 32];
    match hex::encode_to_slice(&Md5::digest(text)[..], &mut digits[..]) {
        Ok(()) => digits,
        Err(_) => unreachable!(),
    }
}

/// Puts the row of a digest with these digits.
fn put_digits<'a, R: Rows>(digits: &'a [u8], out: &mut R) -> Result<(), AllocError>
    ensures { (first : R) (rows : List Row) → R.grew first out.old rows → OnOk result (R.grew first out.new (rows ++ digits_row digits.now ∷ [])) }
{
    let values = [Value::Word(digits)];
    put::<R>(Kind::Summary(SummaryLine::Digest), &values, out)
}

/// Puts the row of a network's digest: the MD5 of the text that [`put_saved`] makes. Networks of one digest are made by one script, but for a
/// collision of MD5.
///
/// `AllocError`: memory was wanted and refused; part of the row may have been put.
pub fn put_digest<C: Saved, R: Rows>(
    alloc: Global,
    contents: &C,
    out: &mut R,
) -> Result<(), AllocError>
    ensures { (first : R) (rows : List Row) → R.grew first out.old rows → OnOk result (R.grew first out.new (rows ++ digest_row (C.tables contents.now).net ∷ [])) }
{
    let text = text_of(alloc, contents)?;
    put_digits(&digits_of(text.as_slice()), out)
}
