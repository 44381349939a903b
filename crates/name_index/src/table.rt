//! The table behind an index of names: it tells the number of a name from the name's bytes.
ghost use Rattle.std.specs.Prelude.{◌≡◌, ◌≢◌, ℕ, ◌+◌, ◌%◌, ◌<◌, ◌↔◌, [], ◌∷◌, ◌++◌, List, Some, None, true, length, get_or, slice_get, IfOk, OnOk, OnErr, IfSome, IfNone, IsTrue, vec_len};
ghost use Rattle.std.specs.Vec.{vec_capacity};
ghost use Rattle.list_defs.specs.Members.{all_differ, place_of, same_name};
ghost use Rattle.name_index.specs.Tables.{Finds, IsLinked, IsSameBut, IsSmooth, IsTable, KeepsNumbers, Leads, crowded_number, hash_of, head_of, nowhere, number_in, place_in, tag_of};

use name_rows::Names;
use std::alloc::{AllocError, Global};
use std::collections::BTreeMap;
use std::hash::{FoldHasher, Hasher};

/// How many names of one place are linked to each other before the tree takes further ones.
const MOST_LINKED: usize = 16;

/// The link to no name.
const NOWHERE: Link = Link { behind: 0, tag: 0 };

/// A link to a name, with a part of the name's hash, so that most other names are passed without a look at their bytes.
#[derive(Clone, Copy)]
pub struct Link {
    /// One more than the number of the name, or 0 for no name.
    behind: u32,
    /// The lower half of the name's hash.
    tag: u32,
}

/// The number of a name is found along the links from the head of its place on, or in the tree of crowded names.
#[derive(Drop)]
pub struct Table {
    /// For each place the link to the name that was linked there last.
    heads: Vec<Link>,
    /// For each name the head that its place had before.
    links: Vec<Link>,
    /// The numbers of the names that came to a full place.
    crowded: BTreeMap<Vec<u8>, u32>,
}

/// The table of no names.
pub fn empty(alloc: Global) -> Table
    ensures { IsTable [] result }
{
    Table {
        heads: Vec::new(alloc),
        links: Vec::new(alloc),
        crowded: BTreeMap::new(alloc),
    }
}

/// The place of a name among the names that the table is of.
pub fn look_up(table: &Table, names: &Names, name: &[u8], hash: u64) -> Option<u32>
    requires hash { hash ≡ hash_of name.now }
    requires table { IsTable names.now table.now }
    requires differ { all_differ same_name names.now ≡ true }
    ensures { result ≡ place_of (same_name name.now) names.now }
{
    match linked_number(table, names, name, hash) {
        Some(number) => Some(number),
        None => crowded_number(table, names, name),
    }
}

/// Puts a name in behind the names that the table is of. An error leaves the names as they were.
pub fn put_in(
    alloc: Global,
    table: &mut Table,
    names: &mut Names,
    name: &[u8],
    hash: u64,
) -> Result<(), AllocError>
    requires hash { hash ≡ hash_of name.now }
    requires table { IsTable names.old table.old }
    requires differ { all_differ same_name names.old ≡ true }
    requires new { place_of (same_name name.now) names.old ≡ None }
    ensures ok { OnOk result (names.new ≡ names.old ++ name.now ∷ []) }
    ensures err { OnErr result (names.new ≡ names.old) }
    ensures table { IsTable names.new table.new }
{
    if names.len() >= 4294967295 {
        return Err(AllocError);
    }
    widen(alloc, table, names)?;
    prepare(alloc, table, name, hash)?;
    names.push(name)?;
    commit(table, name, hash);
    Ok(())
}

/// Gives the table four times as many places where there are as many names as places: 16, 64 and so on.
fn widen(alloc: Global, table: &mut Table, names: &Names) -> Result<(), AllocError>
    requires table { IsTable names.now table.old }
    requires differ { all_differ same_name names.now ≡ true }
    ensures table { IsTable names.now table.new }
    ensures places { OnOk result (0 < length table.new.heads.items) }
{
    let places = table.heads.len();
    if (names.len() as usize) < places {
        return Ok(());
    }
    *table = table_of(alloc, names, places.saturating_mul(4).max(16))?;
    Ok(())
}

/// The table of the names, with so many places.
fn table_of(alloc: Global, names: &Names, places: usize) -> Result<Table, AllocError>
    requires differ { all_differ same_name names.now ≡ true }
    requires places { 0 < places }
    ensures table { IfOk result (λ table. IsTable names.now table) }
    ensures places { IfOk result (λ table. 0 < length table.heads.items) }
{
    let mut table = bare(alloc, places)?;
    for number in 0..names.len() {
        let name = names.name(number);
        let hash = hash(name);
        prepare(alloc, &mut table, name, hash)?;
        commit(&mut table, name, hash);
    }
    Ok(table)
}

/// A table with places, and no names yet.
fn bare(alloc: Global, places: usize) -> Result<Table, AllocError>
    ensures table { IfOk result (λ table. IsTable [] table) }
    ensures places { IfOk result (λ table. length table.heads.items ≡ places) }
{
    Ok(Table {
        heads: vec![in alloc; NOWHERE; places]?,
        links: Vec::with_capacity(alloc, places)?,
        crowded: BTreeMap::new(alloc),
    })
}

/// Makes room for the link of a further name. Where the place of the name is full, the tree takes its number.
fn prepare(alloc: Global, table: &mut Table, name: &[u8], hash: u64) -> Result<(), AllocError>
    requires few { length table.old.links.items < 4294967295 }
    requires smooth { IsSmooth table.old }
    ensures same { IsSameBut name.now table.old table.new }
    ensures room { OnOk result (vec_len table.new.links < vec_capacity table.new.links) }
{
    table.links.reserve(1)?;
    if !is_full(table, hash) {
        return Ok(());
    }
    let number = table.links.len() as u32;
    crowd(alloc, &mut table.crowded, name, number)?;
    Ok(())
}

/// Whether the place of a hash has as many names as are linked.
fn is_full(table: &Table, hash: u64) -> bool {
    let mut link = head(table, hash);
    for _ in 0..MOST_LINKED {
        if link.behind == 0 {
            return false;
        }
        match table.links.get(link.behind as usize - 1) {
            Some(next) => link = *next,
            None => return false,
        }
    }
    true
}

/// Gives a name its number in the tree.
fn crowd(
    alloc: Global,
    crowded: &mut BTreeMap<Vec<u8>, u32>,
    name: &[u8],
    number: u32,
) -> Result<(), AllocError>
    ensures { (other : List ℕ) → other ≢ name.now → number_in crowded.new other ≡ number_in crowded.old other }
{
    let copy = Vec::from_slice(alloc, name)?;
    crowded.insert(copy, number)?;
    Ok(())
}

/// Gives a name the next number: by the tree where that has taken it, else by a link.
fn commit(table: &mut Table, name: &[u8], hash: u64)
    requires hash { hash ≡ hash_of name.now }
    requires few { length table.old.links.items < 4294967295 }
    requires room { vec_len table.old.links < vec_capacity table.old.links }
    requires places { 0 < length table.old.heads.items }
    requires smooth { IsSmooth table.old }
    ensures smooth { IsSmooth table.new }
    ensures places { length table.new.heads.items ≡ length table.old.heads.items }
    ensures count { length table.new.links.items ≡ length table.old.links.items + 1 }
    ensures found { Finds table.new name.now (length table.old.links.items) }
    ensures others { KeepsNumbers table.old table.new name.now }
{
    let number = table.links.len() as u32;
    if has_number(&table.crowded, name, number) {
        table.links.push_reserved(NOWHERE);
        return;
    }
    add_link(table, name, hash);
}

/// Puts the next number in front of those that are linked at the place of a name.
fn add_link(table: &mut Table, name: &[u8], hash: u64)
    requires hash { hash ≡ hash_of name.now }
    requires few { length table.old.links.items < 4294967295 }
    requires room { vec_len table.old.links < vec_capacity table.old.links }
    requires places { 0 < length table.old.heads.items }
    ensures { IsLinked table.old table.new name.now }
{
    let behind = table.links.len() as u32 + 1;
    let head = head(table, hash);
    let place = place(hash, table.heads.len());
    table.heads[place] = Link {
        behind,
        tag: tag(hash),
    };
    table.links.push_reserved(head);
}

/// Whether the tree has the name with the number.
fn has_number(crowded: &BTreeMap<Vec<u8>, u32>, name: &[u8], number: u32) -> bool
    ensures { IsTrue result → number_in crowded.now name.now ≡ Some number }
{
    match crowded.get(name) {
        Some(known) => *known == number,
        None => false,
    }
}

/// The number of the name to which the links of its place lead.
fn linked_number(table: &Table, names: &Names, name: &[u8], hash: u64) -> Option<u32>
    requires table { IsTable names.now table.now }
    requires hash { hash ≡ hash_of name.now }
    ensures some { IfSome result (λ n. slice_get names.now n ≡ Some name.now) }
    ensures none { IfNone result ((n : ℕ) → Leads (tag_of name.now) table.now.links.items (head_of table.now name.now) n → slice_get names.now n ≢ Some name.now) }
{
    let links = table.links.as_slice();
    let tag = tag(hash);
    let mut link = head(table, hash);
    while link.behind > 0 {
        let number = link.behind - 1;
        if link.tag == tag && is_name(names, number, name) {
            return Some(number);
        }
        link = links[number as usize];
    }
    None
}

/// The number of the name in the tree.
fn crowded_number(table: &Table, names: &Names, name: &[u8]) -> Option<u32>
    ensures some { IfSome result (λ n. slice_get names.now n ≡ Some name.now) }
    ensures none { IfNone result ((n : ℕ) → crowded_number table.now name.now ≡ Some n → slice_get names.now n ≢ Some name.now) }
{
    let number = *table.crowded.get(name)?;
    if !is_name(names, number, name) {
        return None;
    }
    Some(number)
}

/// Whether a name stands at a place.
fn is_name(names: &Names, place: u32, name: &[u8]) -> bool
    ensures { IsTrue result ↔ (slice_get names.now place ≡ Some name.now) }
{
    place < names.len() && names.name(place) == name
}

/// The head of the place of a hash.
fn head(table: &Table, hash: u64) -> Link
    ensures { result ≡ get_or table.now.heads.items (place_in hash (length table.now.heads.items)) nowhere }
{
    let places = table.heads.len();
    if places == 0 {
        return NOWHERE;
    }
    table.heads[place(hash, places)]
}

/// The place of a hash among so many, which are a power of two, so that no division is needed.
#[tactic(auto, using(crate::proofs::Links::place_within), unfolding(crate::specs::Tables::place_in))]
fn place(hash: u64, places: usize) -> usize
    requires { 0 < places }
    ensures place { result ≡ place_in hash places }
    ensures within { result < places }
{
    hash as usize & (places - 1)
}

/// The part of a hash that stands beside a link.
fn tag(hash: u64) -> u32
    ensures { result ≡ hash % 4294967296 }
{
    (hash % 4294967296) as u32
}

/// The hash of a name, which the calls above take beside it, so that it is computed once.
#[tactic(auto, unfolding(crate::specs::Tables::hash_of))]
pub fn hash(name: &[u8]) -> u64
    ensures { result ≡ hash_of name.now }
{
    let mut hasher = FoldHasher::default();
    hasher.write(name);
    hasher.finish()
}
