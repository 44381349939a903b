//! Models of soft macros as lines, which are read into models.
//!
//! The lines are `module NAME`, then `port in|out NAME [M L]` for each port, then `feed BIT BIT` for each output bit that an
//! input bit feeds, the output bit first, and in order of the output bits. The other output bits are quiet. There are no
//! supplies, so the one state is legal.

use crate::model_bits::bits_of;
use crate::words::words_of;
use pw_defs::{Bytes, Dir, Kept, List, Memory, Model, Name, Partial, Port};
use std::alloc::Global;

/// An output bit, and the input bit that feeds it.
#[derive(Drop)]
struct Feed {
    bit: Name,
    from: Name,
}

/// What the lines so far say.
#[derive(Drop)]
struct Lines {
    module: Option<Name>,
    ports: List<Port>,
    feeds: Vec<Feed>,
}

impl Lines {
    /// Adds what a line says: whether it is such a line.
    fn add(&mut self, alloc: Global, words: &[&str]) -> Result<bool, Memory> {
        match words {
            [] => Ok(true),
            ["module", name] => self.add_module(alloc, *name),
            ["port", dir, name] => self.add_port(alloc, dir_of(*dir), *name, None),
            ["port", dir, name, left, right] => match range_of(*left, *right) {
                Some(range) => self.add_port(alloc, dir_of(*dir), *name, Some(range)),
                None => Ok(false),
            },
            ["feed", bit, from] => {
                let bit = Name::from_slice(alloc, (*bit).as_bytes())?;
                let from = Name::from_slice(alloc, (*from).as_bytes())?;
                self.feeds.push(Feed { bit, from })?;
                Ok(true)
            }
            _ => Ok(false),
        }
    }

    /// The module is named once.
    fn add_module(&mut self, alloc: Global, name: &str) -> Result<bool, Memory> {
        if self.module.is_some() {
            return Ok(false);
        }
        self.module = Some(Name::from_slice(alloc, name.as_bytes())?);
        Ok(true)
    }

    /// Adds a port, where there is such a direction.
    fn add_port(
        &mut self,
        alloc: Global,
        dir: Option<Dir>,
        name: &str,
        range: Option<(u32, u32)>,
    ) -> Result<bool, Memory> {
        let Some(dir) = dir else {
            return Ok(false);
        };
        let name = Name::from_slice(alloc, name.as_bytes())?;
        self.ports.push(Port { name, dir, range })?;
        Ok(true)
    }
}

fn dir_of(word: &str) -> Option<Dir> {
    match word {
        "in" => Some(Dir::Input),
        "out" => Some(Dir::Output),
        _ => None,
    }
}

/// A range, whose ends are at most 65,535 as those of a netlist.
fn range_of(left: &str, right: &str) -> Option<(u32, u32)> {
    let left = left.parse::<u16>().ok()?;
    let right = right.parse::<u16>().ok()?;
    Some((u32::from(left), u32::from(right)))
}

/// The walk from each output bit, `None` where a feed is of no such bit or out of order.
fn walks_of(
    alloc: Global,
    outputs: &[Bytes],
    feeds: &[Feed],
) -> Result<Option<List<Partial>>, Memory> {
    let mut walks = List::new(alloc);
    let mut rest = feeds;
    for output in outputs {
        let bit = Name::from_slice(alloc, output.as_slice())?;
        match rest.split_first() {
            Some((feed, behind)) if feed.bit == bit => {
                let from = Name::from_slice(alloc, feed.from.as_slice())?;
                walks.push(Partial::Feed {
                    bit,
                    from,
                    elements: List::new(alloc),
                })?;
                rest = behind;
            }
            _ => walks.push(Partial::Quiet { bit })?,
        }
    }
    Ok(if rest.is_empty() { Some(walks) } else { None })
}

/// A model without supplies: the one state is legal, and no chain is watched.
fn bare_model(alloc: Global, module: Name, ports: List<Port>, partials: List<Partial>) -> Model {
    Model {
        module,
        chains: 0,
        passed: 0,
        ports,
        supplies: List::new(alloc),
        outs: List::new(alloc),
        exports: List::new(alloc),
        partials,
        kept: Kept {
            arities: List::new(alloc),
            nodes: List::new(alloc),
        },
        legal: 1,
        watches: List::new(alloc),
    }
}

/// What the lines of a text say, `None` where one is no such line.
fn lines_in(alloc: Global, text: &str) -> Result<Option<Lines>, Memory> {
    let mut lines = Lines {
        module: None,
        ports: List::new(alloc),
        feeds: Vec::new(alloc),
    };
    for line in text.split('\n') {
        let words = words_of(alloc, line)?;
        if !lines.add(alloc, words.as_slice())? {
            return Ok(None);
        }
    }
    Ok(Some(lines))
}

/// The model that a text writes, `None` where it writes none.
pub fn model_of(alloc: Global, text: &[u8]) -> Result<Option<Model>, Memory> {
    let Ok(text) = std::str::from_utf8(text) else {
        return Ok(None);
    };
    let Some(lines) = lines_in(alloc, text)? else {
        return Ok(None);
    };
    let Lines {
        module,
        ports,
        feeds,
    } = lines;
    let Some(module) = module else {
        return Ok(None);
    };
    let names = bits_of(alloc, ports.as_slice())?;
    match walks_of(alloc, names.outputs.as_slice(), feeds.as_slice())? {
        Some(walks) => Ok(Some(bare_model(alloc, module, ports, walks))),
        None => Ok(None),
    }
}
