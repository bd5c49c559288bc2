// The bytes of a table.
ghost use Rattle.std.specs.Prelude.{◌≡◌, ℕ, ◌+◌, ◌*◌, ◌<◌, ◌≤◌, List, length, OnOk, IfOk};
ghost use Rattle.alta_postings.specs.Table.{groups_of, lasts_of, AreRows, IsLonger, HasRowFields, HasGroupFields, IsTableOf};

use crate::summary::Row;
use std::alloc::{AllocError, Global};

/// The table of the rows of all blocks of a stream, in order: each row's three fields, then the last location of each
/// group of 64 rows, all as big-endian u64. One row or none gives no bytes.
pub fn build(alloc: Global, rows: &[Row]) -> Result<Vec<u8>, AllocError>
    requires { AreRows rows.now }
    ensures { IfOk result (λ bytes. IsTableOf bytes.items rows.now) }
{
    let mut bytes = Vec::new(alloc);
    if rows.len() < 2 {
        return Ok(bytes);
    }
    put_rows(&mut bytes, rows)?;
    put_groups(&mut bytes, rows)?;
    Ok(bytes)
}

// Appends one field.
fn put_field(out: &mut Vec<u8>, n: u64) -> Result<(), AllocError>
    ensures { OnOk result (IsLonger out.old.items out.new.items n) }
{
    out.extend_from_slice(&n.to_be_bytes())?;
    Ok(())
}

// Appends the three fields of each row.
fn put_rows(out: &mut Vec<u8>, rows: &[Row]) -> Result<(), AllocError>
    requires { length out.old.items ≡ 0 }
    ensures { OnOk result (HasRowFields out.new.items rows.now (length rows.now)) }
{
    for i in 0..rows.len() {
        let row = rows[i];
        put_field(out, row.first)?;
        put_field(out, row.last)?;
        put_field(out, row.place)?;
    }
    Ok(())
}

// Appends the last location of each group.
fn put_groups(out: &mut Vec<u8>, rows: &[Row]) -> Result<(), AllocError>
    requires some { 0 < length rows.now }
    requires rows { HasRowFields out.old.items rows.now (length rows.now) }
    ensures { OnOk result (HasGroupFields out.new.items rows.now (groups_of (length rows.now))) }
{
    for group in 0..rows.len().div_ceil(64) {
        let last = (64 * group + 63).min(rows.len() - 1);
        put_field(out, rows[last].last)?;
    }
    Ok(())
}
