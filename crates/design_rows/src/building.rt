//! Rows that are built: first the names, places and kinds of the modules and cells, then the instances, and what feeds
//! the bits.
ghost use Rattle.std.specs.Prelude.{◌≡◌, ◌+◌, ◌<◌, ◌≤◌, ◌∷◌, [], ◌++◌, length, replicate, IfOk, OnOk, OnErr, vec_len};
ghost use Rattle.std.specs.Vec.{vec_capacity};
ghost use Rattle.design_rows.specs.Growth.{HasFeed, HasInstance, IsEmpty, with_kind, with_name, with_place};
ghost use Rattle.design_rows.specs.Sound.{AreRows};
ghost use Rattle.design_rows.specs.View.{no_feed, place_name};

use crate::tables::{Feed, InstanceRow, KindRow, PlaceRow, Rows};
use name_rows::Names;
use pw_defs::{Body, Cells, List, Model, Module};
use std::alloc::{AllocError, Global};

impl Rows {
    /// Rows of a design that has no instances yet.
    pub fn new(alloc: Global, cells: Cells, modules: List<Module>, models: List<Model>) -> Rows
        ensures rows { AreRows result }
        ensures parts { IsEmpty cells modules models result }
    {
        Rows {
            cells,
            modules,
            models,
            names: Names::new(alloc),
            kinds: List::new(alloc),
            places: List::new(alloc),
            insts: List::new(alloc),
            children: List::new(alloc),
            feeds: Vec::new(alloc),
        }
    }

    /// Adds a name, and answers its number. An error leaves the rows as they were.
    pub fn add_name(&mut self, name: &[u8]) -> Result<u32, AllocError>
        requires { AreRows self.old }
        ensures rows { AreRows self.new }
        ensures number { IfOk result (λ number. number ≡ length self.old.names) }
        ensures added { OnOk result (self.new ≡ with_name self.old name.now) }
        ensures err { OnErr result (self.new ≡ self.old) }
    {
        let number = self.names.len();
        self.names.push(name)?;
        Ok(number)
    }

    /// Adds a place. An error leaves the rows as they were.
    pub fn add_place(&mut self, place: PlaceRow) -> Result<(), AllocError>
        requires rows { AreRows self.old }
        requires named { place_name place < length self.old.names }
        ensures rows { AreRows self.new }
        ensures added { OnOk result (self.new ≡ with_place self.old place) }
        ensures err { OnErr result (self.new ≡ self.old) }
    {
        self.places.push(place)?;
        Ok(())
    }

    /// Adds what instances can be instances of, and answers its number. An error leaves the rows as they were.
    pub fn add_kind(&mut self, body: Body, first: u32, size: u32) -> Result<u32, AllocError>
        requires rows { AreRows self.old }
        requires places { first + size ≤ length self.old.places }
        ensures rows { AreRows self.new }
        ensures number { IfOk result (λ number. number ≡ length self.old.kinds) }
        ensures added { OnOk result (self.new ≡ with_kind self.old (record { body = body; first = first; size = size })) }
        ensures err { OnErr result (self.new ≡ self.old) }
    {
        let number = self.kinds.len();
        self.kinds.push(KindRow { body, first, size })?;
        Ok(number)
    }

    /// Adds an instance behind the others, with its bits behind theirs, and answers its number. Nothing feeds them yet.
    pub fn add_instance(&mut self, parent: u32, name: u32, kind: u32) -> Result<u32, AllocError>
        requires rows { AreRows self.old }
        requires parent { 0 < length self.old.insts → parent < length self.old.insts }
        requires name { name < length self.old.names }
        requires kind { kind < length self.old.kinds }
        ensures rows { AreRows self.new }
        ensures number { IfOk result (λ number. number ≡ length self.old.insts) }
        ensures added { OnOk result (HasInstance self.old self.new (record { parent = parent; name = name; kind = kind; first_bit = length self.old.feeds.items })) }
    {
        let size = self.kinds.as_slice()[kind as usize].size;
        let first_bit = self.feeds.len();
        if size as usize > 4294967295 - first_bit {
            return Err(AllocError);
        }
        let number = self.insts.len();
        self.feeds.reserve(size as usize)?;
        self.insts.push(InstanceRow {
            parent,
            name,
            kind,
            first_bit: first_bit as u32,
        })?;
        fill(&mut self.feeds, size);
        Ok(number)
    }

    /// Sets what feeds a bit.
    pub fn set_feed(&mut self, n: u32, feed: Feed)
        requires rows { AreRows self.old }
        requires within { n < length self.old.feeds.items }
        ensures rows { AreRows self.new }
        ensures set { HasFeed self.old self.new n feed }
    {
        self.feeds[n as usize] = feed;
    }
}

/// Adds bits that nothing feeds, for which there is room.
fn fill(feeds: &mut Vec<Feed>, count: u32)
    requires { vec_len feeds.old + count ≤ vec_capacity feeds.old }
    ensures { feeds.new.items ≡ feeds.old.items ++ replicate count no_feed }
{
    for _ in 0..count {
        feeds.push_reserved(Feed::Nothing);
    }
}
