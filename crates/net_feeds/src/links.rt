//! The links of one instance after the other, by the numbers of bits.
ghost use Rattle.std.specs.Prelude.{◌≡◌, ◌+◌, ◌++◌, IfOk, map};
ghost use Rattle.net_feeds.specs.LinkNumbers.{bit_behind, end_number, first_bit_of, link_at, links_at, links_of_rows, rows_of};
ghost use Rattle.net_links.specs.LocalLinks.{end_after, links_of_row};

use net_instances::Instances;
use net_links::{LinkEnd, LinkRow, Links};
use pw_defs::{Body, Memory};

/// A link: the number of the bit that is fed, that of what feeds it, and the line that says so. A constant has no number.
#[derive(Clone, Copy)]
pub struct LinkAt {
    pub fed: Option<u32>,
    pub source: Option<u32>,
    pub line: u32,
}

/// The number of the first bit of an instance.
fn first_bit_of(instances: &Instances, inst: u32) -> Option<u32>
    ensures { result ≡ first_bit_of instances.now inst }
{
    let row = instances.rows.get(inst)?;
    Some(row.first_bit)
}

/// The number of a bit that is so many behind another.
fn bit_behind(first: u32, more: u32) -> Result<u32, Memory>
    ensures { IfOk result (λ bit. bit ≡ first + more) }
{
    first.checked_add(more).ok_or(Memory)
}

/// The number of the first of the bits of an end, `None` for constants.
fn end_at(instances: &Instances, inst: u32, end: LinkEnd) -> Result<Option<u32>, Memory>
    ensures { IfOk result (λ first. first ≡ end_number instances.now inst (end_after end 0)) }
{
    match end {
        LinkEnd::Own(bit) => {
            let first = first_bit_of(instances, inst).ok_or(Memory)?;
            let number = bit_behind(first, bit)?;
            Ok(Some(number))
        }
        LinkEnd::Child { line, bit } => {
            let child = instances.child(inst, line).ok_or(Memory)?;
            let first = first_bit_of(instances, child).ok_or(Memory)?;
            let number = bit_behind(first, bit)?;
            Ok(Some(number))
        }
        LinkEnd::Constant => Ok(None),
    }
}

/// The number of one of the bits of an end, by the number of the first one.
fn behind(first: Option<u32>, more: u32) -> Result<Option<u32>, Memory>
    ensures { IfOk result (λ bit. bit ≡ bit_behind more first) }
{
    match first {
        Some(first) => {
            let bit = bit_behind(first, more)?;
            Ok(Some(bit))
        }
        None => Ok(None),
    }
}

/// Adds the links of a row.
fn add_row(
    instances: &Instances,
    inst: u32,
    row: LinkRow,
    out: &mut Vec<LinkAt>,
) -> Result<(), Memory>
    ensures { IfOk result (λ _. out.new.items ≡ out.old.items ++ map (link_at instances.now inst) (links_of_row row)) }
{
    let fed = end_at(instances, inst, row.fed)?;
    let source = end_at(instances, inst, row.source)?;
    for more in 0..row.count {
        let fed_bit = behind(fed, more)?;
        let source_bit = behind(source, more)?;
        out.push(LinkAt {
            fed: fed_bit,
            source: source_bit,
            line: row.line,
        })?;
    }
    Ok(())
}

/// Adds the links of rows.
fn add_rows(
    instances: &Instances,
    inst: u32,
    rows: &[LinkRow],
    out: &mut Vec<LinkAt>,
) -> Result<(), Memory>
    ensures { IfOk result (λ _. out.new.items ≡ out.old.items ++ links_of_rows instances.now inst rows.now) }
{
    for row in rows {
        add_row(instances, inst, *row, out)?;
    }
    Ok(())
}

/// The rows of the links of what an instance is.
fn rows_of<'a>(instances: &Instances, links: &'a Links, inst: u32) -> &'a [LinkRow]
    ensures { result.now ≡ rows_of links.now instances.now inst }
{
    match instances.rows.get(inst) {
        Some(row) => match row.body {
            Body::Module(number) => links.rows(number),
            Body::Cell(_) | Body::Model(_) => &[],
        },
        None => &[],
    }
}

/// Puts the links of the lines in the module of an instance in place of what there was.
pub fn links_at(
    instances: &Instances,
    links: &Links,
    inst: u32,
    out: &mut Vec<LinkAt>,
) -> Result<(), Memory>
    ensures { IfOk result (λ _. out.new.items ≡ links_at links.now instances.now inst) }
{
    out.clear();
    add_rows(instances, inst, rows_of(instances, links, inst), out)?;
    Ok(())
}
