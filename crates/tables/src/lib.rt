//! The device's tables by value: searches, changes, the built-in permissions and the hold rule.
//! Every function answers for every table, also one with a count past its array or garbage past its count.
//! Each takes just the tables that its answer depends on, and no device: a device would ask more of callers.
#![tactic(auto)]

ghost use Rattle.std.specs.Prelude.{◌≡◌, ◌&&◌, not, [], map, take, eqb, Bool};
ghost use Rattle.std.specs.Int.Bits.{bit_and, bit_or};
ghost use Rattle.std.specs.Int.Count.{ones};
ghost use Rattle.rules.specs.Lists.{any, keep, mem};
ghost use Rattle.rules.specs.Action.{carries};
ghost use Rattle.rules.specs.Permissions.{built_in, known, hold, holds, allows};
ghost use Rattle.rules.specs.Grounds.{permission_for, right_ground};
ghost use Rattle.state.specs.Effects.{put};
ghost use Rattle.state.specs.Listed.{list_in, table_of, appended};
ghost use Rattle.state.specs.Stored.{row_of};
ghost use Rattle.state.specs.Tables.{apps_of, defined_in, known_from, app_number, is_resource, owned_by, defined_by};
ghost use Rattle.state.specs.Tables.{granted_in, grouped_in};
ghost use Rattle.tables.specs.Closures.{Tells, Gives};
ghost use Rattle.tables.specs.Held.{apps_in, rows_in, definitions_in, parts_in, resources_in, instances_in, apps_table};
ghost use Rattle.tables.specs.Held.{definitions_table, parts_table, resources_table};
ghost use Rattle.tables.specs.Finding.{place_of, first_of, is_app, is_part, is_definition, is_instance};
ghost use Rattle.tables.specs.Looking.{option_of, op_of, view_by, running_place, runner_in, hold_dangerous};
ghost use Rattle.tables.specs.Looking.{hold_signature, kind_of, number_in};
ghost use Rattle.tables.specs.Running.{digit_of, without, next_of};
ghost use Rattle.tables.specs.Changing.{append_instance, remove_instance, mapped, write_value, change_app, drop_grants};
ghost use Rattle.tables.specs.Changing.{changed_at, undefined_grants};

use manifest::{Component, Resource};
use rules::{Definition, Ground, Hold, Instance, Known, Part};
use state::{App, Apps, Definitions, Instances, Parts, Resources, Table};

/// What is done with a resource.
#[derive(Clone, Copy, PartialEq, Eq)]
pub enum Operation {
    Read,
    Write,
}

impl Operation {
    /// Do a loan's operations, 1 read, 2 write, 3 both, have it?
    #[tactic(auto, unfolding(rules::specs::Action::carries))]
    pub fn is_in(self, operations: u8) -> bool
        ensures { result ≡ carries (op_of self) operations }
    {
        match self {
            Operation::Read => matches!(operations, 1 | 3),
            Operation::Write => matches!(operations, 2 | 3),
        }
    }
}

/// To whom a loan is: an instance or an app, by its number.
#[derive(Clone, Copy, PartialEq, Eq)]
pub enum Receiver<N> {
    Instance(N),
    App(N),
}

impl<N: Copy> Receiver<N> {
    /// The kind of a loan to it.
    pub fn kind(self) -> u8
        ensures { result ≡ kind_of self }
    {
        match self {
            Receiver::Instance(_) => 1,
            Receiver::App(_) => 2,
        }
    }

    /// Its number.
    pub fn number(self) -> N
        ensures { result ≡ number_in self }
    {
        match self {
            Receiver::Instance(number) => number,
            Receiver::App(number) => number,
        }
    }
}

/// How a grant action changes one of an app's lists.
#[derive(Clone, Copy, PartialEq, Eq)]
pub enum Change {
    AddGrant,
    TakeGrant,
    AddGroup,
    TakeGroup,
}

// A built-in permission's level and group, bytes as in `Known`.
#[derive(Clone, Copy)]
struct BuiltIn {
    level: u8,
    group: u8,
}

// By the permission's number; document 01's table of built-in permissions.
const BUILT_INS: [Option<BuiltIn>; 16] = [
    None,
    Some(BuiltIn { level: 0, group: 0 }),
    Some(BuiltIn { level: 0, group: 0 }),
    Some(BuiltIn { level: 1, group: 1 }),
    Some(BuiltIn { level: 1, group: 2 }),
    Some(BuiltIn { level: 1, group: 2 }),
    Some(BuiltIn { level: 1, group: 3 }),
    Some(BuiltIn { level: 2, group: 0 }),
    Some(BuiltIn { level: 3, group: 0 }),
    None,
    None,
    None,
    None,
    None,
    None,
    None,
];

// ---- searches: one line each over a list, since each asks another field of another entry

/// The place of the first app of a number.
pub fn find_app(apps: Apps, number: u16) -> Option<usize>
    ensures { result ≡ place_of (is_app number) (apps_in apps) }
{
    apps.held().iter().position(|a| a.number == number)
}

/// The place of the first component of a number.
pub fn find_part(parts: Parts, number: u16) -> Option<usize>
    ensures { result ≡ place_of (is_part number) (parts_in parts) }
{
    parts
        .held()
        .iter()
        .position(|k| k.component.number == number)
}

/// The place of the first definition of a permission.
pub fn find_definition(definitions: Definitions, permission: u16) -> Option<usize>
    ensures { result ≡ place_of (is_definition permission) (definitions_in definitions) }
{
    definitions
        .held()
        .iter()
        .position(|d| u16::from(d.define.permission) == permission)
}

/// The place of the first instance of a number.
pub fn find_instance(instances: Instances, number: u16) -> Option<usize>
    ensures { result ≡ place_of (is_instance number) (instances_in instances) }
{
    instances
        .list
        .held()
        .iter()
        .position(|i| u16::from(i.number) == number)
}

/// The place of the first resource of a provider and a uri.
pub fn find_resource(resources: Resources, provider: u16, uri: u16) -> Option<usize>
    ensures { result ≡ place_of (is_resource provider uri) (resources_in resources) }
{
    resources
        .held()
        .iter()
        .position(|r| is_resource(r, provider, uri))
}

/// The first app of a number.
pub fn app_of(apps: Apps, number: u16) -> Option<App>
    ensures { result ≡ first_of (is_app number) (apps_in apps) }
{
    apps.held().iter().find(|a| a.number == number).copied()
}

/// The first component of a number.
pub fn part_of(parts: Parts, number: u16) -> Option<Part>
    ensures { result ≡ first_of (is_part number) (parts_in parts) }
{
    parts
        .held()
        .iter()
        .find(|k| k.component.number == number)
        .copied()
}

/// The first definition of a permission.
pub fn definition_of(definitions: Definitions, permission: u16) -> Option<Definition>
    ensures { result ≡ first_of (is_definition permission) (definitions_in definitions) }
{
    definitions
        .held()
        .iter()
        .find(|d| u16::from(d.define.permission) == permission)
        .copied()
}

/// The first instance of a number.
pub fn instance_of(instances: Instances, number: u16) -> Option<Instance>
    ensures { result ≡ first_of (is_instance number) (instances_in instances) }
{
    instances
        .list
        .held()
        .iter()
        .find(|i| u16::from(i.number) == number)
        .copied()
}

/// The first resource of a provider and a uri.
pub fn resource_of(resources: Resources, provider: u16, uri: u16) -> Option<Resource>
    ensures { result ≡ first_of (is_resource provider uri) (resources_in resources) }
{
    resources
        .held()
        .iter()
        .find(|r| is_resource(r, provider, uri))
        .copied()
}

/// Is an app of a number installed?
pub fn has_app(apps: Apps, number: u16) -> bool
    ensures { result ≡ any (is_app number) (apps_in apps) }
{
    apps.held().iter().any(|a| a.number == number)
}

/// Is a component of a number installed?
pub fn has_part(parts: Parts, number: u16) -> bool
    ensures { result ≡ any (is_part number) (parts_in parts) }
{
    parts.held().iter().any(|k| k.component.number == number)
}

/// Is a permission defined by an app?
pub fn has_definition(definitions: Definitions, permission: u16) -> bool
    ensures { result ≡ any (is_definition permission) (definitions_in definitions) }
{
    definitions
        .held()
        .iter()
        .any(|d| u16::from(d.define.permission) == permission)
}

/// Does an instance of a number run?
pub fn has_instance(instances: Instances, number: u16) -> bool
    ensures { result ≡ any (is_instance number) (instances_in instances) }
{
    instances
        .list
        .held()
        .iter()
        .any(|i| u16::from(i.number) == number)
}

/// Is there a resource of a provider and a uri?
pub fn has_resource(resources: Resources, provider: u16, uri: u16) -> bool
    ensures { result ≡ any (is_resource provider uri) (resources_in resources) }
{
    resources
        .held()
        .iter()
        .any(|r| is_resource(r, provider, uri))
}

/// Does an app own a component?
#[tactic(auto, unfolding(state::specs::Tables::owned_by))]
pub fn owns(parts: Parts, app: u16, component: u16) -> bool
    ensures { result ≡ owned_by (parts_in parts) app component }
{
    parts
        .held()
        .iter()
        .any(|k| (k.app == app) & (k.component.number == component))
}

/// Does an app define a permission?
#[tactic(auto, unfolding(state::specs::Tables::defined_by))]
pub fn defines(definitions: Definitions, app: u16, permission: u8) -> bool
    ensures { result ≡ defined_by (definitions_in definitions) app permission }
{
    definitions
        .held()
        .iter()
        .any(|d| (d.app == app) & (d.define.permission == permission))
}

/// Is a number among the first `count` bytes? Its contract is for any bytes; `is_on` is the same over an app's list.
#[tactic(auto, unfolding(rules::specs::Lists::mem))]
pub fn has_byte(bytes: &[u8], count: usize, number: u16) -> bool
    ensures { result ≡ mem number (take count bytes.now) }
{
    bytes.iter().take(count).any(|b| number == u16::from(*b))
}

/// Is a number on one of an app's lists?
pub fn is_on<const ROOM: usize>(list: &Table<u8, ROOM>, number: u16) -> bool
    ensures { result ≡ mem number (list_in list.now) }
{
    has_byte(&list.entries, list.count, number)
}

// ---- permissions

/// The platform's definition of a permission.
pub fn built_in(permission: u16) -> Option<Known>
    ensures { result ≡ option_of (built_in permission) }
{
    if 16 <= permission {
        return None;
    }
    let b = BUILT_INS[usize::from(permission)]?;
    Some(Known {
        definer: 0,
        signer: 1,
        level: b.level,
        group: b.group,
    })
}

/// A definition with the signer of its app, where the app is installed.
pub fn known_from(apps: Apps, definition: Definition) -> Option<Known>
    ensures { result ≡ option_of (known_from (apps_of (rows_in apps)) definition) }
{
    let app = app_of(apps, definition.app)?;
    Some(Known {
        definer: app.number,
        signer: app.signer,
        level: definition.define.level,
        group: definition.define.group,
    })
}

/// The definition of a permission by an installed app.
pub fn defined_in(apps: Apps, definitions: Definitions, permission: u16) -> Option<Known>
    ensures { result ≡ option_of (defined_in (apps_of (rows_in apps)) (definitions_in definitions) permission) }
{
    known_from(apps, definition_of(definitions, permission)?)
}

/// The definition of a permission in force: the platform's, or an installed app's.
pub fn known_of(apps: Apps, definitions: Definitions, permission: u16) -> Option<Known>
    ensures { result ≡ option_of (known (view_by (rows_in apps) (definitions_in definitions) [] []) permission) }
{
    // A `match`, here and in `holds`: of a closure that calls a contract, `or_else` and `is_some_and` tell too little.
    match built_in(permission) {
        Some(known) => Some(known),
        None => defined_in(apps, definitions, permission),
    }
}

/// Was a permission granted to an app?
pub fn granted(apps: Apps, app: u16, permission: u16) -> bool
    ensures { result ≡ granted_in (rows_in apps) app permission }
{
    apps.held()
        .iter()
        .any(|a| (a.number == app) && is_on(&a.grants, permission))
}

/// Was a group granted to an app?
pub fn grouped(apps: Apps, app: u16, group: u16) -> bool
    ensures { result ≡ grouped_in (rows_in apps) app group }
{
    apps.held()
        .iter()
        .any(|a| (a.number == app) && is_on(&a.groups, group))
}

/// Why an app holds a permission whose definition in force is `known`, or does not.
pub fn hold(apps: Apps, app: App, permission: u16, known: Known) -> Hold
    ensures { result ≡ hold (view_by (rows_in apps) [] [] []) (row_of app).app permission known }
{
    if !is_on(&app.uses, permission) {
        return Hold::NotListed;
    }
    match known.level {
        0 => Hold::Normal,
        1 => hold_dangerous(apps, app.number, permission, known.group),
        _ => hold_signature(app, known),
    }
}

/// Does an app hold a permission? One that is undefined is not held.
pub fn holds(apps: Apps, definitions: Definitions, app: App, permission: u16) -> bool
    ensures { result ≡ holds (view_by (rows_in apps) (definitions_in definitions) [] []) (row_of app).app permission }
{
    match known_of(apps, definitions, permission) {
        Some(known) => hold(apps, app, permission, known).is_held(),
        None => false,
    }
}

/// Is a component's permission 0, or held by an app?
pub fn allows(apps: Apps, definitions: Definitions, app: App, permission: u8) -> bool
    ensures { result ≡ allows (view_by (rows_in apps) (definitions_in definitions) [] []) (row_of app).app permission }
{
    (permission == 0) || holds(apps, definitions, app, u16::from(permission))
}

// ---- grounds

/// The ground of an operation by an app that is no loan: it owns the provider, or its permission allows it.
pub fn ground_right(
    apps: Apps,
    definitions: Definitions,
    app: App,
    provider: Part,
    operation: Operation,
) -> Ground
    ensures { result
        ≡ right_ground (view_by (rows_in apps) (definitions_in definitions) [] []) (row_of app).app provider
        (op_of operation) }
{
    if app.number == provider.app {
        return Ground::Owner;
    }
    let c = provider.component;
    if c.exported != 1 {
        return Ground::Nothing;
    }
    let p = permission_for(c, operation);
    if allows(apps, definitions, app, p) {
        return Ground::Permission;
    }
    Ground::Nothing
}

/// The place of the app of a running instance.
pub fn running_app(apps: Apps, parts: Parts, instances: Instances, number: u16) -> Option<usize>
    ensures { result ≡ running_place (apps_in apps) (parts_in parts) (instances_in instances) number }
{
    let instance = instance_of(instances, number)?;
    let part = part_of(parts, instance.component)?;
    find_app(apps, part.app)
}

/// The app of a running instance.
pub fn runner(apps: Apps, parts: Parts, instances: Instances, number: u16) -> Option<App>
    ensures { result ≡ option_of (runner_in (apps_in apps) (parts_in parts) (instances_in instances) number) }
{
    let instance = instance_of(instances, number)?;
    let part = part_of(parts, instance.component)?;
    app_of(apps, part.app)
}

// ---- removals: the entries that stay move to the front, in their order, and the places past them are made zero

/// Without the app of a number.
pub fn remove_app(apps: Apps, number: u16) -> Apps
    ensures { result ≡ apps_table (keep (λ a. not (is_app number a)) (apps_in apps)) }
{
    kept(apps, App::default(), |a| a.number != number)
}

/// Without the definitions of an app.
pub fn remove_definitions(definitions: Definitions, app: u16) -> Definitions
    ensures { result ≡ definitions_table (keep (λ d. not (eqb d.app app)) (definitions_in definitions)) }
{
    kept(definitions, Definition::default(), |d| d.app != app)
}

/// Without the components of an app.
pub fn remove_parts(parts: Parts, app: u16) -> Parts
    ensures { result ≡ parts_table (keep (λ k. not (eqb k.app app)) (parts_in parts)) }
{
    kept(parts, Part::default(), |k| k.app != app)
}

/// Without the resources of the providers that an app owns.
pub fn remove_resources(resources: Resources, parts: Parts, app: u16) -> Resources
    ensures { result
        ≡ resources_table (keep (λ x. not (owned_by (parts_in parts) app x.provider)) (resources_in resources)) }
{
    kept(
        resources,
        Resource::default(),
        |x| !owns(parts, app, x.provider),
    )
}

// ---- additions: a full table stays as it is, as `Table::push` leaves it

/// One app more, at the end.
pub fn append_app(apps: Apps, app: App) -> Apps
    ensures { result ≡ appended 16 apps app }
{
    with(apps, app)
}

/// One definition more.
pub fn append_definition(definitions: Definitions, definition: Definition) -> Definitions
    ensures { result ≡ appended 256 definitions definition }
{
    with(definitions, definition)
}

/// One component more.
pub fn append_part(parts: Parts, part: Part) -> Parts
    ensures { result ≡ appended 64 parts part }
{
    with(parts, part)
}

/// One resource more.
pub fn append_resource(resources: Resources, resource: Resource) -> Resources
    ensures { result ≡ appended 128 resources resource }
{
    with(resources, resource)
}

// ---- running numbers

/// One instance more, with its running number; a full table stays as it is.
pub fn append_instance(instances: Instances, instance: Instance) -> Instances
    ensures { result ≡ append_instance instances instance }
{
    let mut t = instances;
    if t.list.count < 64 {
        t.list.push(instance);
        t.running |= digit_of(u16::from(instance.number));
    }
    t
}

/// Without the instance of a number, and without its running number.
pub fn remove_instance(instances: Instances, number: u16) -> Instances
    ensures { result ≡ remove_instance instances number }
{
    Instances {
        list: kept(
            instances.list,
            Instance::default(),
            |i| u16::from(i.number) != number,
        ),
        running: instances.running & !digit_of(number),
    }
}

/// The lowest of 1 to 64 that no running instance has; 65 where all run, as `next_of` of document 01's rules says it.
pub fn next_number(instances: Instances) -> u32
    ensures { result ≡ next_of instances.running }
{
    u64::trailing_zeros(!instances.running) + 1
}

/// How many instances run.
pub fn running_count(instances: Instances) -> u32
    ensures { result ≡ ones instances.running }
{
    u64::count_ones(instances.running)
}

// ---- changes of entries

/// The value of a resource written.
pub fn write_value(resources: Resources, provider: u16, uri: u16, value: u32) -> Resources
    ensures { result ≡ write_value resources provider uri value }
{
    changed(resources, |r| put(r, provider, uri, value))
}

/// One of an app's lists changed, as a grant action asks.
pub fn change_app(apps: Apps, number: u16, change: Change, member: u8) -> Apps
    ensures { result ≡ change_app apps number change member }
{
    changed(apps, |a| changed_at(a, number, change, member))
}

/// Without the individual grants of the permissions that an app defines.
pub fn drop_grants(apps: Apps, definitions: Definitions, app: u16) -> Apps
    ensures { result ≡ drop_grants apps (definitions_in definitions) app }
{
    changed(apps, |a| undefined_grants(a, definitions, app))
}

// ---- helpers

// A table with one entry more.
fn with<T: Copy, const ROOM: usize>(table: Table<T, ROOM>, entry: T) -> Table<T, ROOM>
    ensures { result ≡ appended ROOM table entry }
{
    let mut t = table;
    t.push(entry);
    t
}

// The entries that pass a test, in their order, and zero past them. Private, as all that take a closure: it has to be
// callable, and no function that another crate can reach has a `requires`.
fn kept<T: Copy, const ROOM: usize, F: Fn(&T) -> bool>(
    table: Table<T, ROOM>,
    zero: T,
    stays: F,
) -> Table<T, ROOM>
    requires { F.IsAlwaysCallable stays }
    ensures { (test : T → Bool) → Tells F.Fn stays test → result ≡ table_of zero ROOM (keep test (list_in table)) }
{
    let mut left = Table::empty(zero);
    for entry in table.held() {
        if stays(entry) {
            left.push(*entry);
        }
    }
    left
}

// Each entry changed, and the places past them as they were.
fn changed<T: Copy, const ROOM: usize, F: Fn(T) -> T>(
    table: Table<T, ROOM>,
    change: F,
) -> Table<T, ROOM>
    requires { F.IsAlwaysCallable change }
    ensures { (to : T → T) → Gives F.Fn change to → result ≡ mapped to table }
{
    let mut t = table;
    // By the place, which the proof names: `iter_mut` up to the count has none.
    for i in 0..table.held().len() {
        t.entries[i] = change(t.entries[i]);
    }
    t
}

fn is_resource(resource: &Resource, provider: u16, uri: u16) -> bool
    ensures { result ≡ is_resource provider uri resource.now }
{
    (resource.provider == provider) & (resource.uri == uri)
}

// For an app that lists the permission, of level 1.
fn hold_dangerous(apps: Apps, app: u16, permission: u16, group: u8) -> Hold
    ensures { result ≡ hold_dangerous (rows_in apps) app permission group }
{
    if granted(apps, app, permission) {
        return Hold::Granted;
    }
    if grouped(apps, app, u16::from(group)) {
        return Hold::ByGroup;
    }
    Hold::NotGranted
}

// For an app that lists the permission, of another level than 0 and 1.
fn hold_signature(app: App, known: Known) -> Hold
    ensures { result ≡ hold_signature (row_of app).app known }
{
    if ((known.level == 2) | (known.level == 3)) & (app.signer == known.signer) {
        return Hold::BySigner;
    }
    if (known.level == 3) & app.image {
        return Hold::ByImage;
    }
    Hold::SignerDiffers
}

fn permission_for(component: Component, operation: Operation) -> u8
    ensures { result ≡ permission_for (op_of operation) component }
{
    match operation {
        Operation::Read => component.read,
        Operation::Write => component.write,
    }
}

// The digit of an instance's number.
fn digit_of(number: u16) -> u64
    ensures { result ≡ digit_of number }
{
    match number {
        1..=64 => 1u64 << (number - 1),
        _ => 0,
    }
}

fn put(resource: Resource, provider: u16, uri: u16, value: u32) -> Resource
    ensures { result ≡ put provider uri value resource }
{
    if is_resource(&resource, provider, uri) {
        return Resource { value, ..resource };
    }
    resource
}

fn changed_at(app: App, number: u16, change: Change, member: u8) -> App
    ensures { result ≡ changed_at number change member app }
{
    let mut a = app;
    if a.number == number {
        match change {
            Change::AddGrant => a.grants.push(member),
            Change::TakeGrant => a.grants = kept(a.grants, 0, |m| *m != member),
            Change::AddGroup => a.groups.push(member),
            Change::TakeGroup => a.groups = kept(a.groups, 0, |m| *m != member),
        }
    }
    a
}

// The grants of permissions that an app does not define.
fn undefined_grants(app: App, definitions: Definitions, definer: u16) -> App
    ensures { result ≡ undefined_grants (definitions_in definitions) definer app }
{
    App {
        grants: kept(app.grants, 0, |p| !defines(definitions, definer, *p)),
        ..app
    }
}
