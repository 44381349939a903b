//! Rows in the order of their names.
ghost use Rattle.std.specs.Prelude.{◌≡◌, OnOk};
ghost use Rattle.list_defs.specs.Orders.{IsPutInOrder};
ghost use Rattle.net_places.specs.Tables.{row_cmp};

use crate::rows::NamedRow;
use pw_defs::Memory;
use std::cmp::Ordering;

/// How two rows stand: by their names.
fn compare(left: &NamedRow, right: &NamedRow) -> Ordering
    ensures { result ≡ row_cmp left.now right.now }
{
    left.name.cmp(right.name)
}

/// Puts rows in order.
pub(crate) fn sort(rows: &mut Vec<NamedRow>) -> Result<(), Memory>
    ensures { OnOk result (IsPutInOrder row_cmp rows.old.items rows.new.items) }
{
    rows.sort_by(|left, right| compare(left, right))?;
    Ok(())
}
