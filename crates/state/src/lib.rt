//! The device by value: tables of fixed room, each with its count. Places past a count are zero.
#![tactic(auto)]

ghost use Rattle.std.specs.Prelude.{◌≡◌, ◌≤◌, [], length};
ghost use Rattle.state.specs.Listed.{table_of, list_in, appended};
ghost use Rattle.state.specs.Stored.{zero_app};

use manifest::Resource;
use rules::{Definition, Instance, Part};

/// A list in an array of fixed room, and how many entries it has; places past the count are zero.
/// Every method answers for every table, also one with a count past its array or garbage past its count.
#[derive(Clone, Copy)]
pub struct Table<T, const ROOM: usize> {
    pub entries: [T; ROOM],
    pub count: usize,
}

impl<T: Copy, const ROOM: usize> Table<T, ROOM> {
    /// A table of no entries, with `zero` in each place.
    pub fn empty(zero: T) -> Self
        ensures { result ≡ table_of zero ROOM [] }
    {
        Table {
            entries: [zero; ROOM],
            count: 0,
        }
    }

    /// The entries of the list; all places where the count is past the array.
    pub fn held(&self) -> &[T]
        ensures value { result.now ≡ list_in self.now }
        ensures room { length result.now ≤ ROOM }
    {
        self.entries.get(..self.count).unwrap_or(&self.entries)
    }

    /// One entry more, at the end; a full table stays as it is.
    pub fn push(&mut self, entry: T)
        ensures { self.new ≡ appended ROOM self.old entry }
    {
        if self.count < ROOM {
            self.entries[self.count] = entry;
            self.count += 1;
        }
    }
}

/// An installed app, with its own lists of uses, of individual grants and of granted groups.
#[derive(Clone, Copy)]
pub struct App {
    pub number: u16,
    pub signer: u32,
    pub image: bool,
    pub uses: Table<u8, 32>,
    pub grants: Table<u8, 32>,
    pub groups: Table<u8, 15>,
}

impl Default for App {
    ghost is_default = { λ a. a ≡ zero_app };

    fn default() -> App {
        App {
            number: 0,
            signer: 0,
            image: false,
            uses: Table::empty(0),
            grants: Table::empty(0),
            groups: Table::empty(0),
        }
    }
}

pub type Apps = Table<App, 16>;

pub type Definitions = Table<Definition, 256>;

pub type Parts = Table<Part, 64>;

pub type Resources = Table<Resource, 128>;

/// The running instances; bit n - 1 of `running` says that instance n runs.
#[derive(Clone, Copy)]
pub struct Instances {
    pub list: Table<Instance, 64>,
    pub running: u64,
}

/// All tables but the loans', which are lent; `lent` counts the loans there.
#[derive(Clone, Copy)]
pub struct Device {
    pub apps: Apps,
    pub definitions: Definitions,
    pub parts: Parts,
    pub resources: Resources,
    pub instances: Instances,
    pub lent: usize,
}
