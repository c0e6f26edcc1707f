#![tactic(auto)]

ghost use Rattle.std.specs.Prelude.{ℕ, ◌<◌};

// Damages a valid device in one place at a time, asks whether the state is still valid, and writes a line for each.
// Document 01, "A valid state": each clause, at its edge.
use manifest::{Component, Define, Resource};
use rules::{Definition, Instance, Loan, Part};
use state::{App, Device, Instances, Table};
use std::io;

// A device and the lent table.
#[derive(Clone, Copy)]
struct World {
    device: Device,
    lent: [Loan; 128],
}

// What each app of the fullest device lists and is granted: dangerous permissions that apps define.
const LISTED: [u8; 32] = [
    32, 33, 34, 35, 36, 37, 38, 39, 40, 41, 42, 43, 44, 45, 46, 47, 48, 49, 50, 51, 52, 53, 54, 55,
    56, 57, 58, 59, 60, 61, 62, 63,
];

fn main(rt: HostRuntime) -> io::Result<()> {
    told(&rt, "the empty device", empty())?;
    told(&rt, "the fullest device", full())?;
    let w = sound();
    told(&rt, "the device that is damaged below", w)?;
    damaged_apps(&rt, w)?;
    damaged_uses(&rt, w)?;
    damaged_grants(&rt, w)?;
    damaged_groups(&rt, w)?;
    damaged_definitions(&rt, w)?;
    damaged_defines(&rt, w)?;
    damaged_parts(&rt, w)?;
    damaged_components(&rt, w)?;
    damaged_activities(&rt, w)?;
    damaged_resources(&rt, w)?;
    damaged_instances(&rt, w)?;
    damaged_running(&rt, w)?;
    damaged_loans(&rt, w)?;
    damaged_lending(&rt, w)
}

// Writes a name and the verdict.
fn told(rt: &HostRuntime, name: &str, w: World) -> io::Result<()> {
    let lent = w.lent;
    if device::valid(w.device, lent) {
        println!(rt; "{name}: valid")
    } else {
        println!(rt; "{name}: not valid")
    }
}

// ---- the damages, table by table

fn damaged_apps(rt: &HostRuntime, w: World) -> io::Result<()> {
    let mut x = w;
    x.device.apps.count = 17;
    told(rt, "17 apps", x)?;
    let mut x = w;
    x.device.apps.entries[2].number = 10;
    told(rt, "an app number twice", x)?;
    let mut x = w;
    x.device.apps.entries[2].number = 0;
    told(rt, "an app number 0", x)?;
    let mut x = w;
    x.device.apps.entries[2].signer = 0;
    told(rt, "a signer 0", x)?;
    let mut x = w;
    x.device.apps.entries[15].signer = 1;
    told(rt, "a signer in an unused place", x)?;
    let mut x = w;
    x.device.apps.entries[15].image = true;
    told(rt, "an image app in an unused place", x)?;
    let mut x = w;
    x.device.apps.entries[3].uses.entries[0] = 1;
    told(rt, "a use in an unused place", x)
}

fn damaged_uses(rt: &HostRuntime, w: World) -> io::Result<()> {
    let mut x = w;
    x.device.apps.entries[2].uses.count = 33;
    told(rt, "33 uses", x)?;
    let mut x = w;
    x.device.apps.entries[2].uses.entries[0] = 0;
    told(rt, "a use 0", x)?;
    let mut x = w;
    x.device.apps.entries[2].uses.entries[2] = 64;
    told(rt, "a use 64", x)?;
    let mut x = w;
    x.device.apps.entries[2].uses.entries[1] = 1;
    told(rt, "a use twice", x)?;
    let mut x = w;
    x.device.apps.entries[2].uses.entries[0] = 5;
    told(rt, "falling uses", x)?;
    let mut x = w;
    x.device.apps.entries[2].uses.entries[31] = 1;
    told(rt, "a byte after the uses", x)
}

fn damaged_grants(rt: &HostRuntime, w: World) -> io::Result<()> {
    let mut x = w;
    x.device.apps.entries[0].grants.count = 33;
    told(rt, "33 grants", x)?;
    let mut x = w;
    x.device.apps.entries[0].grants.entries[1] = 3;
    told(rt, "a grant twice", x)?;
    let mut x = w;
    x.device.apps.entries[0].grants.entries[1] = 4;
    told(rt, "a grant not listed", x)?;
    let mut x = w;
    x.device.apps.entries[0].grants.entries[1] = 17;
    told(rt, "a grant of a normal permission", x)?;
    let mut x = w;
    x.device.apps.entries[0].grants.entries[1] = 40;
    told(rt, "a grant of a permission that is not defined", x)?;
    let mut x = w;
    x.device.apps.entries[0].grants.entries[31] = 1;
    told(rt, "a byte after the grants", x)
}

fn damaged_groups(rt: &HostRuntime, w: World) -> io::Result<()> {
    let mut x = w;
    x.device.apps.entries[0].groups.count = 16;
    told(rt, "16 groups", x)?;
    let mut x = w;
    x.device.apps.entries[0].groups.entries[0] = 0;
    told(rt, "a group 0", x)?;
    let mut x = w;
    x.device.apps.entries[0].groups.entries[0] = 16;
    told(rt, "a group 16", x)?;
    let mut x = w;
    x.device.apps.entries[0].groups.entries[0] = 2;
    told(rt, "a group twice", x)?;
    let mut x = w;
    x.device.apps.entries[0].groups.entries[14] = 1;
    told(rt, "a byte after the groups", x)
}

fn damaged_definitions(rt: &HostRuntime, w: World) -> io::Result<()> {
    let mut x = w;
    x.device.definitions.count = 257;
    told(rt, "257 definitions", x)?;
    let mut x = w;
    x.device.definitions.entries[255].define.group = 1;
    told(rt, "a definition in an unused place", x)?;
    let mut x = w;
    x.device.definitions.entries[2].app = 99;
    told(rt, "a definition by no app", x)?;
    let mut x = w;
    x.device.definitions.entries[2].define.permission = 16;
    told(rt, "a permission defined twice", x)?;
    let mut x = w;
    x.device.definitions.entries[2].define.permission = 15;
    told(rt, "a permission 15", x)?;
    let mut x = w;
    x.device.definitions.entries[2].define.permission = 64;
    told(rt, "a permission 64", x)
}

fn damaged_defines(rt: &HostRuntime, w: World) -> io::Result<()> {
    let mut x = w;
    x.device.definitions.entries[0].define.level = 4;
    told(rt, "a level 4", x)?;
    let mut x = w;
    x.device.definitions.entries[0].define.group = 16;
    told(rt, "a group 16 of a permission", x)?;
    let mut x = w;
    x.device.definitions.entries[2].define.group = 1;
    told(rt, "a group of a normal permission", x)?;
    let mut x = w;
    x.device.definitions.entries[0].define.permission = 19;
    told(rt, "falling definitions", x)?;
    told(rt, "17 definitions by an app", seventeen_definitions(w))
}

fn damaged_parts(rt: &HostRuntime, w: World) -> io::Result<()> {
    let mut x = w;
    x.device.parts.count = 65;
    told(rt, "65 components", x)?;
    let mut x = w;
    x.device.parts.entries[63].component.write = 1;
    told(rt, "a component in an unused place", x)?;
    let mut x = w;
    x.device.parts.entries[3].component.number = 101;
    told(rt, "a component number twice", x)?;
    let mut x = w;
    x.device.parts.entries[0].component.number = 0;
    told(rt, "a component number 0", x)?;
    let mut x = w;
    x.device.parts.entries[3].app = 99;
    told(rt, "a component of no app", x)?;
    let mut x = w;
    x.device.parts.entries[0].component.number = 103;
    told(rt, "falling components", x)?;
    told(rt, "17 components of an app", seventeen_components(w))
}

fn damaged_components(rt: &HostRuntime, w: World) -> io::Result<()> {
    let mut x = w;
    x.device.parts.entries[0].component.kind = 0;
    told(rt, "a kind 0", x)?;
    let mut x = w;
    x.device.parts.entries[0].component.kind = 5;
    told(rt, "a kind 5", x)?;
    let mut x = w;
    x.device.parts.entries[0].component.exported = 2;
    told(rt, "exported 2", x)?;
    let mut x = w;
    x.device.parts.entries[1].component.shares = 2;
    told(rt, "shares 2", x)?;
    let mut x = w;
    x.device.parts.entries[0].component.start = 64;
    told(rt, "a start permission 64", x)?;
    let mut x = w;
    x.device.parts.entries[1].component.start = 3;
    told(rt, "a provider with a start permission", x)
}

fn damaged_activities(rt: &HostRuntime, w: World) -> io::Result<()> {
    let mut x = w;
    x.device.parts.entries[0].component.shares = 1;
    told(rt, "an activity that shares", x)?;
    let mut x = w;
    x.device.parts.entries[0].component.read = 3;
    told(rt, "an activity with a read permission", x)?;
    let mut x = w;
    x.device.parts.entries[0].component.write = 3;
    told(rt, "an activity with a write permission", x)
}

fn damaged_resources(rt: &HostRuntime, w: World) -> io::Result<()> {
    let mut x = w;
    x.device.resources.count = 129;
    told(rt, "129 resources", x)?;
    let mut x = w;
    x.device.resources.entries[127].value = 1;
    told(rt, "a value in an unused place", x)?;
    let mut x = w;
    x.device.resources.entries[1].uri = 1;
    told(rt, "a resource twice", x)?;
    let mut x = w;
    x.device.resources.entries[2].provider = 99;
    told(rt, "a resource of no component", x)?;
    let mut x = w;
    x.device.resources.entries[2].provider = 100;
    told(rt, "a resource of an activity", x)?;
    let mut x = w;
    x.device.resources.entries[0].uri = 0;
    told(rt, "a uri 0", x)?;
    let mut x = w;
    x.device.resources.entries[0].uri = 3;
    told(rt, "falling resources", x)?;
    told(rt, "33 resources of an app", many_resources(w))
}

fn damaged_instances(rt: &HostRuntime, w: World) -> io::Result<()> {
    let mut x = w;
    x.device.instances.list.count = 65;
    told(rt, "65 instances", x)?;
    let mut x = w;
    x.device.instances.list.entries[63].component = 1;
    told(rt, "an instance in an unused place", x)?;
    let mut x = w;
    x.device.instances.list.entries[2].number = 0;
    x.device.instances.running = 3;
    told(rt, "an instance 0", x)?;
    let mut x = w;
    x.device.instances.list.entries[2].number = 65;
    x.device.instances.running = 3;
    told(rt, "an instance 65", x)?;
    let mut x = w;
    x.device.instances.list.entries[2].number = 2;
    x.device.instances.running = 3;
    told(rt, "an instance twice", x)?;
    let mut x = w;
    x.device.instances.list.entries[2].component = 101;
    told(rt, "an instance of a provider", x)?;
    let mut x = w;
    x.device.instances.list.entries[2].component = 99;
    told(rt, "an instance of no component", x)
}

fn damaged_running(rt: &HostRuntime, w: World) -> io::Result<()> {
    let mut x = w;
    x.device.instances.running = 15;
    told(rt, "a running number too many", x)?;
    let mut x = w;
    x.device.instances.running = 3;
    told(rt, "a running number too few", x)?;
    let mut x = w;
    x.device.instances.running = 0;
    told(rt, "no running number", x)
}

fn damaged_loans(rt: &HostRuntime, w: World) -> io::Result<()> {
    let mut x = w;
    x.device.lent = 129;
    told(rt, "129 loans", x)?;
    let mut x = w;
    x.lent[127].uri = 1;
    told(rt, "a loan in an unused place", x)?;
    let mut x = w;
    x.lent[0].operations = 0;
    told(rt, "operations 0", x)?;
    let mut x = w;
    x.lent[0].operations = 4;
    told(rt, "operations 4", x)?;
    let mut x = w;
    x.lent[0].kind = 0;
    told(rt, "a receiver kind 0", x)?;
    let mut x = w;
    x.lent[0].kind = 3;
    told(rt, "a receiver kind 3", x)
}

fn damaged_lending(rt: &HostRuntime, w: World) -> io::Result<()> {
    let mut x = w;
    x.lent[0].receiver = 4;
    told(rt, "a loan to an instance that does not run", x)?;
    let mut x = w;
    x.lent[1].receiver = 99;
    told(rt, "a loan to no app", x)?;
    let mut x = w;
    x.lent[0].uri = 9;
    told(rt, "a loan on no resource", x)?;
    let mut x = w;
    x.lent[0].provider = 102;
    told(rt, "a loan of a provider that does not share", x)?;
    let mut x = w;
    x.lent[1].kind = 1;
    x.lent[1].receiver = 2;
    x.lent[1].uri = 1;
    told(rt, "a loan twice", x)
}

// An app with an entry more than a manifest may have, each good by itself and the keys rising.
fn seventeen_definitions(w: World) -> World {
    let mut after = w;
    after.device.definitions = filled(17, |i| definition(10, 16 + i, 1, 0));
    after
}

fn seventeen_components(w: World) -> World {
    let mut after = w;
    for i in 0..14u16 {
        after.device.parts.push(Part {
            app: 10,
            component: activity(103 + i),
        });
    }
    after
}

fn many_resources(w: World) -> World {
    let mut after = w;
    for i in 0..30u16 {
        after.device.resources.push(Resource {
            provider: 102,
            uri: 2 + i,
            value: 0,
        });
    }
    after
}

// ---- the devices that are valid

fn empty() -> World {
    World {
        device: Device {
            apps: listed(&[]),
            definitions: listed(&[]),
            parts: listed(&[]),
            resources: listed(&[]),
            instances: Instances {
                list: listed(&[]),
                running: 0,
            },
            lent: 0,
        },
        lent: [Loan::default(); 128],
    }
}

// A device of three apps, the last with no entries of its own.
fn sound() -> World {
    let loans: Table<Loan, 128> = listed(&[
        Loan {
            kind: 1,
            receiver: 2,
            provider: 101,
            uri: 1,
            operations: 1,
        },
        Loan {
            kind: 2,
            receiver: 20,
            provider: 101,
            uri: 2,
            operations: 3,
        },
    ]);
    let lent = loans.entries;
    World {
        device: Device {
            apps: listed(&[first_app(), plain_app(20), plain_app(30)]),
            definitions: listed(&[
                definition(10, 16, 1, 4),
                definition(10, 18, 2, 0),
                definition(20, 17, 0, 0),
            ]),
            parts: listed(&[
                part(10, activity(100)),
                part(10, component(101, 4, 1)),
                part(10, component(102, 4, 0)),
                part(20, activity(200)),
                part(20, component(201, 2, 0)),
            ]),
            resources: listed(&[
                resource(101, 1, 7),
                resource(101, 2, 0),
                resource(102, 1, 9),
            ]),
            instances: Instances {
                list: listed(&[instance(1, 100), instance(2, 200), instance(3, 201)]),
                running: 7,
            },
            lent: loans.count,
        },
        lent,
    }
}

// It lists dangerous permissions, a normal one and one that is not defined.
fn first_app() -> App {
    App {
        number: 10,
        signer: 5,
        image: true,
        uses: listed(&[3, 6, 16, 17, 40]),
        grants: listed(&[3, 16]),
        groups: listed(&[15, 2]),
    }
}

fn plain_app(number: u16) -> App {
    App {
        number,
        signer: 6,
        uses: listed(&[1, 3, 63]),
        ..App::default()
    }
}

// Every limit is reached, and so is what a manifest may have, as far as the limits let it.
fn full() -> World {
    // Four resources of each provider, each lent to an instance.
    let loans: Table<Loan, 128> = filled(
        128,
        |i| Loan {
            kind: 1,
            receiver: u16::from(1 + i % 64),
            provider: provider_of(i),
            uri: u16::from(1 + i % 4),
            operations: 3,
        },
    );
    let lent = loans.entries;
    World {
        device: Device {
            apps: filled(16, |i| full_app(u16::from(i) + 1)),
            // Three permissions by each app, all dangerous: with 16 to 63 there are no more.
            definitions: filled(48, |i| definition(u16::from(i / 3) + 1, 16 + i, 1, 1)),
            // Two activities and two providers of each app.
            parts: filled(64, |i| part(u16::from(i / 4) + 1, full_component(i))),
            resources: filled(128, |i| resource(provider_of(i), u16::from(i % 4) + 1, 1)),
            instances: Instances {
                list: filled(64, |i| instance(i + 1, u16::from((i / 4) * 4 + i % 2) + 1)),
                running: u64::MAX,
            },
            lent: loans.count,
        },
        lent,
    }
}

fn full_app(number: u16) -> App {
    App {
        number,
        signer: 1,
        image: false,
        uses: listed(&LISTED),
        grants: listed(&LISTED),
        groups: filled(15, |i| i + 1),
    }
}

fn full_component(place: u8) -> Component {
    let number = u16::from(place) + 1;
    if place % 4 < 2 {
        return activity(number);
    }
    component(number, 4, 1)
}

// The number of the provider of the resource at a place: of each four components the last two.
fn provider_of(place: u8) -> u16 {
    u16::from((place / 8) * 4 + (place / 4) % 2) + 3
}

fn definition(app: u16, permission: u8, level: u8, group: u8) -> Definition {
    Definition {
        app,
        define: Define {
            permission,
            level,
            group,
        },
    }
}

fn part(app: u16, component: Component) -> Part {
    Part { app, component }
}

fn activity(number: u16) -> Component {
    component(number, 1, 0)
}

fn component(number: u16, kind: u8, shares: u8) -> Component {
    Component {
        number,
        kind,
        shares,
        ..Component::default()
    }
}

fn resource(provider: u16, uri: u16, value: u32) -> Resource {
    Resource {
        provider,
        uri,
        value,
    }
}

fn instance(number: u8, component: u16) -> Instance {
    Instance { number, component }
}

// The table of these entries.
fn listed<T: Copy + Default, const ROOM: usize>(entries: &[T]) -> Table<T, ROOM> {
    let mut table = Table::empty(T::default());
    for entry in entries {
        table.push(*entry);
    }
    table
}

// The table of `count` entries, each told by its place.
fn filled<T: Copy + Default, const ROOM: usize, F: Fn(u8) -> T>(
    count: u8,
    entry: F,
) -> Table<T, ROOM>
    requires { (i : ℕ) → i < count → F.pre entry i }
{
    let mut table = Table::empty(T::default());
    for i in 0..count {
        table.push(entry(i));
    }
    table
}
