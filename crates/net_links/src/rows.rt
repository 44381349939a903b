//! The links of modules in rows.
ghost use Rattle.std.specs.Prelude.{◌≡◌, ◌++◌, ◌∷◌, [], OnOk, slice_index_or};

use pw_defs::{List, Memory};
use std::alloc::Global;
use std::marker::Model;

/// An end of links of a module: a bit of the module by its number there, a bit of what the line of an instance makes, by
/// the number of the line in the module and that of the bit in the body of its type, or a constant.
#[derive(Clone, Copy)]
pub enum LinkEnd {
    Own(u32),
    Child { line: u32, bit: u32 },
    Constant,
}

/// Links one behind another: the bits from two ends on, `count` of them, and the line of the text that says so.
#[derive(Clone, Copy)]
pub struct LinkRow {
    pub fed: LinkEnd,
    pub source: LinkEnd,
    pub count: u32,
    pub line: u32,
}

/// The links of each module in rows, seen as the list of their rows.
#[derive(Drop)]
pub struct Links {
    modules: List<List<LinkRow>>,
}

impl Model for Links {
    ghost use Rattle.std.specs.Prelude.{List};
    ghost use Rattle.net_links.specs.declared.rows.LinkRow.{LinkRow as Row};

    ghost Value = { List (List Row) };

    ghost view = { λ l. l.modules };
}

impl Links {
    /// The links of no modules.
    pub(crate) fn new(alloc: Global) -> Links
        ensures { result ≡ [] }
    {
        Links {
            modules: List::new(alloc),
        }
    }

    /// Adds the rows of a module behind those of the others.
    pub(crate) fn add(&mut self, rows: List<LinkRow>) -> Result<(), Memory>
        ensures { OnOk result (self.new ≡ self.old ++ rows ∷ []) }
    {
        self.modules.push(rows)?;
        Ok(())
    }

    /// The rows of a module, by its number `holder`.
    pub fn rows(&self, holder: u32) -> &[LinkRow]
        ensures { result.now ≡ slice_index_or self.now holder [] }
    {
        match self.modules.as_slice().get(holder as usize) {
            Some(rows) => rows.as_slice(),
            None => &[],
        }
    }
}
