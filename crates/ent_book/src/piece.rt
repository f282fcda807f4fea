//! Numbers and rows, put at the end of bytes.
ghost use Rattle.std.specs.Prelude.{◌≡◌, ◌++◌, OnErr, OnOk};
ghost use Rattle.std.specs.Fmt.{decimal};
ghost use Rattle.ent_book.specs.Report.{row_line, rows_text};

use ent_value::{Row, print_row};
use itoa::Buffer;
use std::alloc::{AllocError, Global};

/// A number in decimal digits, without zeros in front of them. Where memory runs out nothing is put.
pub fn append_number(_alloc: Global, out: &mut Vec<u8>, number: u64) -> Result<(), AllocError>
    ensures ok { OnOk result (out.new.items ≡ out.old.items ++ decimal number) }
    ensures err { OnErr result (out.new.items ≡ out.old.items) }
{
    let mut digits = Buffer::new();
    out.extend_from_slice(digits.format(number).as_bytes())
}

fn append_row_line(alloc: Global, out: &mut Vec<u8>, row: &Row) -> Result<(), AllocError>
    ensures { OnOk result (out.new.items ≡ out.old.items ++ row_line row.now) }
{
    print_row(alloc, out, row)?;
    out.push(b'\n')?;
    Ok(())
}

/// Rows, a line each.
pub(crate) fn append_rows(alloc: Global, out: &mut Vec<u8>, rows: &[Row]) -> Result<(), AllocError>
    ensures { OnOk result (out.new.items ≡ out.old.items ++ rows_text rows.now) }
{
    for row in rows {
        append_row_line(alloc, out, row)?;
    }
    Ok(())
}
