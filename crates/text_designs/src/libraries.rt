//! The cells of libraries, put together.
ghost use Rattle.std.specs.Prelude.{IfErr, IfOk};
ghost use Rattle.read_laws.specs.Laws.{AreJoinedCells};
ghost use Rattle.text_designs.specs.Texts.{AreLibrariesAtFault, IsLibraryAtFault, JoinsText, no_cells};

use crate::faults::TextFault;
use cell_joins::{join_cells, read_cells};
use pw_defs::{Bytes, Cells, LibFault, List};
use std::alloc::Global;

/// The cells so far with those of one more library's text.
fn joined_text(alloc: Global, all: &Cells, text: &[u8]) -> Result<Cells, LibFault>
    ensures joined { IfOk result (JoinsText all.now text.now) }
    ensures cause { IfErr result (IsLibraryAtFault all.now text.now) }
{
    let more = read_cells(alloc, text)?;
    let joined = join_cells(alloc, all, &more)?;
    Ok(joined)
}

/// The cells of libraries, each joined to those before it: a cell that is given again alike stands once, at the place where
/// it first came.
///
/// Errors: the first fault of the first text that has one, and then a cell that a text gives otherwise than one before it,
/// at line 0; or want of memory.
pub fn cells_of_texts(alloc: Global, libraries: &List<Bytes>) -> Result<Cells, TextFault>
    ensures joined { IfOk result (AreJoinedCells no_cells libraries.now) }
    ensures cause { IfErr result (AreLibrariesAtFault libraries.now) }
{
    let mut all = Cells {
        cells: List::new(alloc),
    };
    let mut number = 0;
    for text in libraries.as_slice() {
        all = match joined_text(alloc, &all, text.as_slice()) {
            Ok(joined) => joined,
            Err(fault) => {
                return Err(TextFault::Library {
                    text: number,
                    fault,
                });
            }
        };
        number += 1;
    }
    Ok(all)
}
