//! Writers of the fields of binary formats: each puts a field at the end of the bytes. Numbers are
//! big-endian. If memory runs out, the bytes before the field stay.

ghost use Rattle.std.specs.Prelude.{◌≡◌, ◌<◌, ◌^◌, [], ◌∷◌, ◌++◌, length, OnOk};
ghost use Rattle.oc_base.specs.Spelling.{eight, four, flag, rank_bytes, cert_bytes, ids_bytes};

use crate::{Cert, IdList, NodeId, Rank};
use std::alloc::AllocError;

/// Writes a byte.
pub fn put_byte(out: &mut Vec<u8>, byte: &u8) -> Result<(), AllocError>
    ensures { OnOk result (out.new.items ≡ out.old.items ++ byte.now ∷ []) }
{
    Ok(out.push(*byte)?)
}

/// Writes a flag, as a byte that is 0 or 1.
pub fn put_flag(out: &mut Vec<u8>, is_set: &bool) -> Result<(), AllocError>
    ensures { OnOk result (out.new.items ≡ out.old.items ++ flag is_set.now) }
{
    Ok(out.push(u8::from(*is_set))?)
}

/// Writes a number of eight bytes.
pub fn put_long(out: &mut Vec<u8>, number: &u64) -> Result<(), AllocError>
    ensures { OnOk result (out.new.items ≡ out.old.items ++ eight number.now) }
{
    out.extend_from_slice(&number.to_be_bytes())
}

/// Writes the id of a node, in four bytes.
pub fn put_id(out: &mut Vec<u8>, id: &NodeId) -> Result<(), AllocError>
    ensures { OnOk result (out.new.items ≡ out.old.items ++ four id.now) }
{
    put_int(out, id.0)
}

/// Writes a number of four bytes.
fn put_int(out: &mut Vec<u8>, number: u32) -> Result<(), AllocError>
    ensures { OnOk result (out.new.items ≡ out.old.items ++ four number) }
{
    out.extend_from_slice(&number.to_be_bytes())
}

/// Writes a rank: epoch and depth.
pub fn put_rank(out: &mut Vec<u8>, rank: &Rank) -> Result<(), AllocError>
    ensures { OnOk result (out.new.items ≡ out.old.items ++ rank_bytes rank.now) }
{
    put_long(out, &rank.epoch)?;
    put_int(out, rank.depth)
}

/// Writes a certificate, in 33 bytes.
pub fn put_cert(out: &mut Vec<u8>, cert: &Cert) -> Result<(), AllocError>
    ensures { OnOk result (out.new.items ≡ out.old.items ++ cert_bytes cert.now) }
{
    put_id(out, &cert.subject)?;
    put_long(out, &cert.seq)?;
    put_id(out, &cert.parent)?;
    put_flag(out, &cert.dead)?;
    put_long(out, &cert.number)?;
    put_long(out, &cert.clients)?;
    Ok(())
}

/// Writes the number of ids in two bytes, and each id.
pub fn put_ids(out: &mut Vec<u8>, ids: &IdList) -> Result<(), AllocError>
    requires { length ids.now < 2 ^ 16 }
    ensures { OnOk result (out.new.items ≡ out.old.items ++ ids_bytes ids.now) }
{
    let ids = ids.items();
    out.extend_from_slice(&(ids.len() as u16).to_be_bytes())?;
    for id in ids {
        put_id(out, id)?;
    }
    Ok(())
}
