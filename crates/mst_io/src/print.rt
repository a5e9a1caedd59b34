ghost use Rattle.std.specs.Prelude.{◌≡◌, false, OnOk, OnErr};
ghost use Rattle.std.specs.List.{flat_map};
ghost use Rattle.std.specs.Io.KnownBytes.{Appends};
ghost use Rattle.mst_io.specs.Devices.{Works, IsStopped};
ghost use Rattle.mst_io.specs.Written.{AppendsFront};

use crate::devices::Sink;

/// The sink failed, or took nothing.
#[derive(Drop)]
pub struct WriteFailed;

/// Writes all the bytes. After a failure a front of them went out.
pub fn put<K: Sink>(sink: &mut K, bytes: &[u8]) -> Result<(), WriteFailed>
    requires working { (K.told sink.old).failed ≡ false }
    ensures ok { OnOk result (Appends (K.contents sink.old) (K.contents sink.new) bytes.now) }
    ensures err { OnErr result (AppendsFront (K.contents sink.old) (K.contents sink.new) bytes.now) }
    ensures works { OnOk result (Works (K.told sink.old) (K.told sink.new)) }
    ensures broken { OnErr result (IsStopped (K.told sink.old) (K.told sink.new)) }
    ensures lent { K.lent sink.new ≡ K.lent sink.old }
{
    let mut rest = bytes;
    while !rest.is_empty() {
        match sink.put(rest) {
            Err(_) => return Err(WriteFailed),
            Ok(count) => {
                if count == 0 {
                    return Err(WriteFailed);
                }
                let (_, left) = rest.split_at(count);
                rest = left;
            }
        }
    }
    Ok(())
}

/// Writes the parts in turn. After a failure a front of them went out.
pub fn put_parts<K: Sink>(sink: &mut K, parts: &[&[u8]]) -> Result<(), WriteFailed>
    requires working { (K.told sink.old).failed ≡ false }
    ensures ok { OnOk result (Appends (K.contents sink.old) (K.contents sink.new) (flat_map (λ part. part.now) parts.now)) }
    ensures err { OnErr result (AppendsFront (K.contents sink.old) (K.contents sink.new) (flat_map (λ part. part.now) parts.now)) }
    ensures works { OnOk result (Works (K.told sink.old) (K.told sink.new)) }
    ensures broken { OnErr result (IsStopped (K.told sink.old) (K.told sink.new)) }
    ensures lent { K.lent sink.new ≡ K.lent sink.old }
{
    for part in parts {
        put(sink, *part)?;
    }
    Ok(())
}
