//! Reads a manifest: is it good, and where do its sections stand. Document 01, "The manifest, in sections".
#![tactic(auto)]

ghost use Rattle.std.specs.Prelude.{◌≡◌, refl, true, ◌+◌, ◌*◌, ◌≤◌, ◌<◌, List, Bool, ℕ, length, leb, ltb};
ghost use Rattle.std.specs.Prelude.{IfSome, option_map};
ghost use Rattle.manifest.specs.Layout.{u8_at, u16_at, u32_at, define_at, component_at, resource_at, entries, section};
ghost use Rattle.manifest.specs.Layout.{after};
ghost use Rattle.manifest.specs.Good.{any, rising, good_use, good_define, good_component, is_provider_of};
ghost use Rattle.manifest.specs.Good.{resources_rise, resource_key};
ghost use Rattle.manifest.specs.Verdict.{verdict_of, answer_of, entry_at, zero_define, zero_component, zero_resource};
ghost use Rattle.manifest.specs.Steps.{head_found, found, listed};

use std::marker::PhantomData;

/// An entry of the section defines. Level and group are bytes and no enums, since `good_define` is asked of every byte.
#[derive(Clone, Copy, PartialEq, Eq, Default)]
pub struct Define {
    pub permission: u8,
    pub level: u8,
    pub group: u8,
}

/// An entry of the section components. Kind and flags are bytes and no enums, since `good_component` is asked of every
/// byte.
#[derive(Clone, Copy, PartialEq, Eq, Default)]
pub struct Component {
    pub number: u16,
    pub kind: u8,
    pub exported: u8,
    pub shares: u8,
    pub start: u8,
    pub read: u8,
    pub write: u8,
}

/// An entry of the section resources; `value` is its first value.
#[derive(Clone, Copy, PartialEq, Eq, Default)]
pub struct Resource {
    pub provider: u16,
    pub uri: u16,
    pub value: u32,
}

/// Where the first entry of a section stands, and how many entries there are.
#[derive(Clone, Copy, PartialEq, Eq)]
pub struct Section {
    pub first: usize,
    pub count: u8,
}

/// What the sections of a good manifest hold, and where.
#[derive(Clone, Copy, PartialEq, Eq)]
pub struct Sections {
    pub app: u16,
    pub signer: u32,
    pub uses: Section,
    pub defines: Section,
    pub components: Section,
    pub resources: Section,
}

/// The manifest's bytes and the place that was reached in them.
#[derive(Clone, Copy)]
pub struct Reader<'a> {
    pub src: &'a [u8],
    pub at: usize,
}

/// An entry of a section: its size, how it is read, the key by which a section's entries rise, and its own test.
trait Entry: Copy {
    ghost SIZE: { ℕ };

    ghost entry: { List ℕ → ℕ → Self };

    ghost key: { Self → ℕ };

    ghost good: { Self → Bool };

    const SIZE: usize;

    fn read(s: &[u8], at: usize) -> Self
        requires { at + SIZE ≤ length s.now }
        ensures { result ≡ entry s.now at };

    fn key(self) -> u32
        ensures { result ≡ key self };

    fn good(self) -> bool
        ensures { result ≡ good self };

    ghost small: { leb SIZE 8 ≡ true };
}

/// An entry of the section uses is a permission.
impl Entry for u8 {
    ghost SIZE = { 1 };

    ghost entry = { u8_at };

    ghost key = { λ p. p };

    ghost good = { good_use };

    ghost small = { refl };

    const SIZE: usize = 1;

    fn read(s: &[u8], at: usize) -> u8 {
        s[at]
    }

    fn key(self) -> u32 {
        u32::from(self)
    }

    fn good(self) -> bool {
        self <= 63
    }
}

impl Entry for Define {
    ghost SIZE = { 3 };

    ghost entry = { define_at };

    ghost key = { λ d. d.permission };

    ghost good = { good_define };

    ghost small = { refl };

    const SIZE: usize = 3;

    fn read(s: &[u8], at: usize) -> Define {
        Define {
            permission: s[at],
            level: s[at + 1],
            group: s[at + 2],
        }
    }

    fn key(self) -> u32 {
        u32::from(self.permission)
    }

    fn good(self) -> bool {
        good_define(self)
    }
}

impl Entry for Component {
    ghost SIZE = { 8 };

    ghost entry = { component_at };

    ghost key = { λ c. c.number };

    ghost good = { good_component };

    ghost small = { refl };

    const SIZE: usize = 8;

    fn read(s: &[u8], at: usize) -> Component {
        Component {
            number: u16_from(s, at),
            kind: s[at + 2],
            exported: s[at + 3],
            shares: s[at + 4],
            start: s[at + 5],
            read: s[at + 6],
            write: s[at + 7],
        }
    }

    fn key(self) -> u32 {
        u32::from(self.number)
    }

    fn good(self) -> bool {
        good_component(self)
    }
}

/// A resource's own test is on its URI alone. Its provider is looked for among the components, in `resources_rise`.
impl Entry for Resource {
    ghost SIZE = { 8 };

    ghost entry = { resource_at };

    ghost key = { resource_key };

    ghost good = { λ r. ltb 0 r.uri };

    ghost small = { refl };

    const SIZE: usize = 8;

    fn read(s: &[u8], at: usize) -> Resource {
        Resource {
            provider: u16_from(s, at),
            uri: u16_from(s, at + 2),
            value: u32_from(s, at + 4),
        }
    }

    fn key(self) -> u32 {
        resource_key(self)
    }

    fn good(self) -> bool {
        0 < self.uri
    }
}

/// A section whose entries are all there, and the bytes that they are in.
#[derive(Drop)]
struct Entries<'a, E: Entry> {
    src: &'a [u8],
    section: Section,
    of: PhantomData<E>,
    ghost within: { section.first + E.SIZE * section.count ≤ length src.now },
}

impl<'a> Reader<'a> {
    /// Passes the app number and the signer.
    fn head(&mut self) -> Option<(u16, u32)>
        ensures same { self.new.src ≡ self.old.src }
        ensures value { result ≡ head_found self.old.src.now self.old.at }
        ensures passed { IfSome result (λ _. self.new.at ≡ self.old.at + 6) }
    {
        let head = head_at(self.src, self.at)?;
        self.at += 6;
        Some(head)
    }

    /// Passes a section that has at most so many entries, each good by itself.
    fn section<E: Entry>(&mut self, most: usize) -> Option<Entries<'a, E>>
        ensures same { self.new.src ≡ self.old.src }
        ensures lists { IfSome result (λ x. x.src ≡ self.old.src) }
        ensures value { option_map (λ x. x.section) result ≡ found E.SIZE most self.old.src.now self.old.at
            (rising E.key E.good 0 (section E.entry E.SIZE self.old.src.now self.old.at)) }
        ensures passed { IfSome result (λ _. self.new.at ≡ after E.SIZE self.old.src.now self.old.at) }
    {
        let entries = section_at(self.src, self.at, most)?;
        self.at = entries.end();
        Some(entries)
    }

    /// Passes the resources. Not by `section`, since what a resource has to pass takes the components too.
    fn resources(&mut self, components: &Entries<'a, Component>) -> Option<Entries<'a, Resource>>
        ensures same { self.new.src ≡ self.old.src }
        ensures value { option_map (λ x. x.section) result ≡ found 8 32 self.old.src.now self.old.at
            (resources_rise (listed component_at 8 components.now.src.now components.now.section) 0
            (section resource_at 8 self.old.src.now self.old.at)) }
        ensures passed { IfSome result (λ _. self.new.at ≡ after 8 self.old.src.now self.old.at) }
    {
        let entries = resources_at(self.src, self.at, components)?;
        self.at = entries.end();
        Some(entries)
    }
}

impl<'a, E: Entry> Entries<'a, E> {
    /// The section at a place, if it has at most so many entries and they are all there.
    fn counted(src: &'a [u8], at: usize, most: usize) -> Option<Entries<'a, E>>
        ensures lists { IfSome result (λ x. x.src ≡ src.entry) }
        ensures value { option_map (λ x. x.section) result ≡ found E.SIZE most src.entry.now at true }
    {
        let count = *src.get(at)?;
        let n = usize::from(count);
        if most < n || src.len() - (at + 1) < E::SIZE * n {
            return None;
        }
        let section = Section {
            first: at + 1,
            count,
        };
        Some(Entries {
            src,
            section,
            of: PhantomData,
        })
    }

    /// The place after them.
    fn end(&self) -> usize
        ensures { result ≡ self.now.section.first + E.SIZE * self.now.section.count }
    {
        self.section.first + E::SIZE * usize::from(self.section.count)
    }

    /// Where entry k stands. It is read by the loops themselves: handed on by a function between, its fields are put
    /// together and taken apart once more at each turn.
    fn place(&self, k: usize) -> usize
        requires { k < self.now.section.count }
        ensures value { result ≡ self.now.section.first + E.SIZE * k }
        ensures within { result + E.SIZE ≤ length self.now.src.now }
    {
        self.section.first + E::SIZE * k
    }

    /// Each is good by itself, and their keys rise.
    #[tactic(auto, using(crate::proofs::Turns::entries_turn))]
    fn rise(&self) -> bool
        ensures { result ≡ rising E.key E.good 0 (listed E.entry E.SIZE self.now.src.now self.now.section) }
    {
        let mut low = 0;
        for k in 0..usize::from(self.section.count) {
            let entry = E::read(self.src, self.place(k));
            let key = entry.key();
            if key <= low || !entry.good() {
                return false;
            }
            low = key;
        }
        true
    }
}

impl<'a> Entries<'a, Component> {
    /// A provider of the number `p` is among them.
    #[tactic(auto, using(crate::proofs::Turns::entries_turn))]
    fn has_provider(&self, p: u16) -> bool
        ensures { result ≡ any (is_provider_of p) (listed component_at 8 self.now.src.now self.now.section) }
    {
        for k in 0..usize::from(self.section.count) {
            if is_provider_of(Component::read(self.src, self.place(k)), p) {
                return true;
            }
        }
        false
    }
}

impl<'a> Entries<'a, Resource> {
    /// Each is good, of a provider among the components, and their keys rise. Resources mostly have the same provider
    /// as the one before, `last`, which is not searched for again.
    #[tactic(auto, using(crate::proofs::Turns::entries_turn))]
    fn rise_among(&self, components: &Entries<'a, Component>) -> bool
        ensures { result ≡ resources_rise (listed component_at 8 components.now.src.now components.now.section) 0
            (listed resource_at 8 self.now.src.now self.now.section) }
    {
        let mut low = 0;
        let mut last = None;
        for k in 0..usize::from(self.section.count) {
            let r = Resource::read(self.src, self.place(k));
            let key = r.key();
            let known = last == Some(r.provider) || components.has_provider(r.provider);
            if key <= low || !r.good() || !known {
                return false;
            }
            low = key;
            last = Some(r.provider);
        }
        true
    }
}

/// The packing tool's question: 0 for a good manifest, 3 for any other bytes. The crate manifest_c exports it to C.
pub fn manifest_check(bytes: &[u8]) -> u32
    ensures { result ≡ answer_of bytes.now }
{
    match check(bytes) {
        Some(_) => 0,
        None => 3,
    }
}

/// The sections of a good manifest, none of other bytes: a reader goes through them once, front to back.
pub fn check(bytes: &[u8]) -> Option<Sections>
    ensures { result ≡ verdict_of bytes.now }
{
    let mut reader = Reader { src: bytes, at: 0 };
    let (app, signer) = reader.head()?;
    let uses = reader.section::<u8>(32)?;
    let defines = reader.section::<Define>(16)?;
    let components = reader.section::<Component>(16)?;
    let resources = reader.resources(&components)?;
    (reader.at == bytes.len()).then_some(Sections {
        app,
        signer,
        uses: uses.section,
        defines: defines.section,
        components: components.section,
        resources: resources.section,
    })
}

/// The byte at a place, 0 past the end. An entry of the section uses is one byte.
pub fn byte_at(s: &[u8], at: usize) -> u8
    ensures { result ≡ u8_at s.now at }
{
    s.get(at).copied().unwrap_or(0)
}

/// The define, the component and the resource at a place; one that is not all there reads as zeros. `Entry` and
/// `entry_or` stay private, since no function that other crates reach has a `requires`, as `Entry::read` has.
pub fn define_at(s: &[u8], at: usize) -> Define
    ensures { result ≡ entry_at zero_define define_at 3 s.now at }
{
    entry_or(s, at, Define::default())
}

pub fn component_at(s: &[u8], at: usize) -> Component
    ensures { result ≡ entry_at zero_component component_at 8 s.now at }
{
    entry_or(s, at, Component::default())
}

pub fn resource_at(s: &[u8], at: usize) -> Resource
    ensures { result ≡ entry_at zero_resource resource_at 8 s.now at }
{
    entry_or(s, at, Resource::default())
}

fn entry_or<E: Entry>(s: &[u8], at: usize, zeros: E) -> E
    ensures { result ≡ entry_at zeros E.entry E.SIZE s.now at }
{
    if all_there(s, at, E::SIZE) {
        E::read(s, at)
    } else {
        zeros
    }
}

/// The cursor core of the reader: what stands at a place, if it is good.
fn head_at(s: &[u8], at: usize) -> Option<(u16, u32)>
    ensures { result ≡ head_found s.now at }
{
    if !all_there(s, at, 6) {
        return None;
    }
    let app = u16_from(s, at);
    let signer = u32_from(s, at + 2);
    (0 < app && 0 < signer).then_some((app, signer))
}

fn section_at<'a, E: Entry>(src: &'a [u8], at: usize, most: usize) -> Option<Entries<'a, E>>
    ensures lists { IfSome result (λ x. x.src ≡ src.entry) }
    ensures value { option_map (λ x. x.section) result
        ≡ found E.SIZE most src.entry.now at (rising E.key E.good 0 (section E.entry E.SIZE src.entry.now at)) }
{
    let entries = Entries::counted(src, at, most)?;
    entries.rise().then_some(entries)
}

fn resources_at<'a>(
    src: &'a [u8],
    at: usize,
    components: &Entries<'a, Component>,
) -> Option<Entries<'a, Resource>>
    ensures lists { IfSome result (λ x. x.src ≡ src.entry) }
    ensures value { option_map (λ x. x.section) result ≡ found 8 32 src.entry.now at
        (resources_rise (listed component_at 8 components.now.src.now components.now.section) 0
        (section resource_at 8 src.entry.now at)) }
{
    let entries = Entries::counted(src, at, 32)?;
    entries.rise_among(components).then_some(entries)
}

/// The tests of one entry, as the valid state has them too; and the key by which resources rise.
pub fn good_define(d: Define) -> bool
    ensures { result ≡ good_define d }
{
    16 <= d.permission
        && d.permission <= 63
        && d.level <= 3
        && d.group <= 15
        && (d.level == 1 || d.group == 0)
}

pub fn good_component(c: Component) -> bool
    ensures { result ≡ good_component c }
{
    let rest = if c.kind == 4 {
        c.start == 0
    } else {
        c.shares == 0 && c.read == 0 && c.write == 0
    };
    1 <= c.kind
        && c.kind <= 4
        && c.exported <= 1
        && c.shares <= 1
        && c.start <= 63
        && c.read <= 63
        && c.write <= 63
        && rest
}

fn is_provider_of(c: Component, p: u16) -> bool
    ensures { result ≡ is_provider_of p c }
{
    c.number == p && c.kind == 4
}

pub fn resource_key(r: Resource) -> u32
    ensures { result ≡ resource_key r }
{
    u32::from(r.provider) * 65536 + u32::from(r.uri)
}

/// There are `size` bytes from the place `at` on.
fn all_there(s: &[u8], at: usize, size: usize) -> bool
    ensures { result ≡ leb (at + size) (length s.now) }
{
    size <= s.len() && at <= s.len() - size
}

/// The numbers from a place on, where all their bytes are there.
fn u16_from(s: &[u8], at: usize) -> u16
    requires { at + 2 ≤ length s.now }
    ensures { result ≡ u16_at s.now at }
{
    u16::from_le_bytes([s[at], s[at + 1]])
}

fn u32_from(s: &[u8], at: usize) -> u32
    requires { at + 4 ≤ length s.now }
    ensures { result ≡ u32_at s.now at }
{
    u32::from_le_bytes([s[at], s[at + 1], s[at + 2], s[at + 3]])
}
