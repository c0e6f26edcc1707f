//! Is the state valid? For every device and every lent table, whatever their bytes.
//! Document 01, "A valid state".
#![tactic(auto)]

ghost use Rattle.std.specs.Prelude.{◌≡◌, Bool, not, ℕ, map, eqb, ltb};
ghost use Rattle.manifest.specs.Good.{good_uses, good_defines, good_components, is_provider};
ghost use Rattle.rules.specs.Lists.{any, all, distinct, test};
ghost use Rattle.rules.specs.Refusals.{is_group};
ghost use Rattle.state.specs.Listed.{list_in, table_of};
ghost use Rattle.state.specs.Tables.{app_number, part_at};
ghost use Rattle.state.specs.Valid.{same_app, same_part, same_resource, same_permission, same_instance, same_loan};
ghost use Rattle.state.specs.Valid.{is_installed, is_sharing_provider};
ghost use Rattle.state.specs.Stored.{is_zero, is_zero_definition, is_zero_part, is_zero_resource, is_zero_instance};
ghost use Rattle.state.specs.Stored.{is_zero_loan, is_zero_app, app_pads, pads, mask_of, row_of, valid_stored};
ghost use Rattle.tables.specs.Closures.{Tells};
ghost use Rattle.tables.specs.Held.{apps_in, rows_in, definitions_in, parts_in, resources_in, instances_in};
ghost use Rattle.device.specs.Closures.{Says, TellsSame};
ghost use Rattle.device.specs.Rising.{few_rising};
ghost use Rattle.device.specs.Tests.{defines_of, components_of, part_or, with_provider, good_provided, is_dangerous};
ghost use Rattle.device.specs.Tests.{good_grant_by, good_instance, live_in, good_loan, good_manifest_by, good_row_by};
ghost use Rattle.device.specs.Tests.{good_numbers, good_owners, good_runs, good_lending, good_rows_by, good_lists_by};
ghost use Rattle.device.specs.Tests.{dangerous_in, formed_tables};

use manifest::Resource;
use rules::{Definition, Instance, Loan, Part};
use state::{App, Apps, Definitions, Device, Instances, Parts, Resources, Table};

/// A resource with the component of its provider's number, which is all zero where there is none.
#[derive(Clone, Copy, Default)]
struct Provided {
    provider: Part,
    resource: Resource,
}

// The most entries of each section of a manifest.
const USES: u8 = 32;

const DEFINES: u8 = 16;

const COMPONENTS: u8 = 16;

const RESOURCES: u8 = 32;

/// Is the state valid, whatever the bytes of the device and of the lent table?
pub fn valid(d: Device, lent: [Loan; 128]) -> bool
    ensures { result ≡ valid_stored d lent }
{
    let loans = Table {
        entries: lent,
        count: d.lent,
    };
    tables_formed(&d) && loans_padded(&loans) && lists_good(&d, &loans)
}

// ---- unused places are zero

// No count is past its array, unused places are zero, and the running numbers are those of the list.
fn tables_formed(d: &Device) -> bool
    ensures { result ≡ formed_tables d.now }
{
    apps_padded(&d.apps)
        && lists_padded(&d.apps)
        && definitions_padded(&d.definitions)
        && parts_padded(&d.parts)
        && resources_padded(&d.resources)
        && instances_padded(&d.instances)
        && running_agrees(&d.instances)
}

fn apps_padded(t: &Apps) -> bool
    ensures { result ≡ pads is_zero_app 16 t.now.entries t.now.count }
{
    padded(t, |a| zero_app(a))
}

// One function for each type: a generic one would have to be told, at each call, that a comparison with the type's
// default is the zero test of the contract, which the check finds alone here.
fn definitions_padded(t: &Definitions) -> bool
    ensures { result ≡ pads is_zero_definition 256 t.now.entries t.now.count }
{
    padded(t, |d| *d == Definition::default())
}

fn parts_padded(t: &Parts) -> bool
    ensures { result ≡ pads is_zero_part 64 t.now.entries t.now.count }
{
    padded(t, |k| *k == Part::default())
}

fn resources_padded(t: &Resources) -> bool
    ensures { result ≡ pads is_zero_resource 128 t.now.entries t.now.count }
{
    padded(t, |r| *r == Resource::default())
}

fn instances_padded(t: &Instances) -> bool
    ensures { result ≡ pads is_zero_instance 64 t.now.list.entries t.now.list.count }
{
    padded(&t.list, |i| *i == Instance::default())
}

fn loans_padded(t: &Table<Loan, 128>) -> bool
    ensures { result ≡ pads is_zero_loan 128 t.now.entries t.now.count }
{
    padded(t, |x| *x == Loan::default())
}

// The lists of every app in the table are padded.
fn lists_padded(t: &Apps) -> bool
    ensures { result ≡ all app_pads (apps_in t.now) }
{
    t.held().iter().all(|a| app_padded(a))
}

fn app_padded(a: &App) -> bool
    ensures { result ≡ app_pads a.now }
{
    bytes_padded(&a.uses) && bytes_padded(&a.grants) && bytes_padded(&a.groups)
}

fn bytes_padded<const ROOM: usize>(t: &Table<u8, ROOM>) -> bool
    ensures { result ≡ pads is_zero ROOM t.now.entries t.now.count }
{
    padded(t, |n| *n == 0)
}

// Field by field, and no derived `==`: the definition asks for lists that are padded, and not for equal arrays.
fn zero_app(a: &App) -> bool
    ensures { result ≡ is_zero_app a.now }
{
    (((a.number == 0) & (a.signer == 0)) & (!a.image & (a.uses.count == 0)))
        & (((a.grants.count == 0) & (a.groups.count == 0)) & app_padded(a))
}

// The running numbers are those that the instances of the list bring, one by one.
fn running_agrees(t: &Instances) -> bool
    ensures { result ≡ eqb t.now.running (mask_of (instances_in t.now)) }
{
    let mut brought = Instances {
        list: Table::empty(Instance::default()),
        running: 0,
    };
    for instance in t.list.held() {
        brought = tables::append_instance(brought, *instance);
    }
    t.running == brought.running
}

// ---- the lists

fn lists_good(d: &Device, loans: &Table<Loan, 128>) -> bool
    ensures { result ≡ good_lists_by d.now (list_in loans.now) }
{
    numbers_good(d)
        && owners_good(d)
        && definitions_distinct(&d.definitions)
        && apps_good(d)
        && runs_good(d)
        && lending_good(d, loans)
}

// Numbers are unique and not zero, resources unique.
fn numbers_good(d: &Device) -> bool
    ensures { result ≡ good_numbers (rows_in d.now.apps) (parts_in d.now.parts) (resources_in d.now.resources) }
{
    apps_distinct(&d.apps)
        && apps_numbered(&d.apps)
        && parts_distinct(&d.parts)
        && parts_numbered(&d.parts)
        && resources_distinct(&d.resources)
}

fn apps_distinct(t: &Apps) -> bool
    ensures { result ≡ distinct same_app (rows_in t.now) }
{
    distinct(t.held(), |a, b| a.number == b.number)
}

fn apps_numbered(t: &Apps) -> bool
    ensures { result ≡ all (λ r. ltb 0 (app_number r)) (rows_in t.now) }
{
    t.held().iter().all(|a| 0 < a.number)
}

fn parts_distinct(t: &Parts) -> bool
    ensures { result ≡ distinct same_part (parts_in t.now) }
{
    distinct(t.held(), |k, j| k.component.number == j.component.number)
}

fn parts_numbered(t: &Parts) -> bool
    ensures { result ≡ all (λ k. ltb 0 k.component.number) (parts_in t.now) }
{
    t.held().iter().all(|k| 0 < k.component.number)
}

#[tactic(auto, unfolding(state::specs::Tables::is_resource))]
fn resources_distinct(t: &Resources) -> bool
    ensures { result ≡ distinct same_resource (resources_in t.now) }
{
    distinct(
        t.held(),
        |r, s| (s.provider == r.provider) & (s.uri == r.uri),
    )
}

// Every component, resource and definition belongs to an installed app.
fn owners_good(d: &Device) -> bool
    ensures { result
        ≡ good_owners (rows_in d.now.apps) (definitions_in d.now.definitions) (parts_in d.now.parts)
        (resources_in d.now.resources) }
{
    parts_owned(&d.parts, d.apps)
        && resources_owned(&d.resources, d.parts)
        && definitions_owned(&d.definitions, d.apps)
}

fn parts_owned(t: &Parts, apps: Apps) -> bool
    ensures { result ≡ all (λ k. is_installed (rows_in apps) k.app) (parts_in t.now) }
{
    t.held().iter().all(|k| installed(apps, k.app))
}

fn resources_owned(t: &Resources, parts: Parts) -> bool
    ensures { result
        ≡ all (λ r. any (λ k. eqb k.component.number r.provider) (parts_in parts)) (resources_in t.now) }
{
    t.held().iter().all(|r| tables::has_part(parts, r.provider))
}

fn definitions_owned(t: &Definitions, apps: Apps) -> bool
    ensures { result ≡ all (λ d. is_installed (rows_in apps) d.app) (definitions_in t.now) }
{
    t.held().iter().all(|d| installed(apps, d.app))
}

fn installed(apps: Apps, number: u16) -> bool
    ensures { result ≡ is_installed (rows_in apps) number }
{
    tables::has_app(apps, number)
}

fn definitions_distinct(t: &Definitions) -> bool
    ensures { result ≡ distinct same_permission (definitions_in t.now) }
{
    distinct(t.held(), |d, e| d.define.permission == e.define.permission)
}

// ---- apps

// All tests of the apps of a table; the providers of the resources and the dangerous permissions are looked up once.
fn apps_good(d: &Device) -> bool
    ensures { result
        ≡ good_rows_by (rows_in d.now.apps) (definitions_in d.now.definitions) (parts_in d.now.parts)
        (resources_in d.now.resources) }
{
    let provided = provided_in(&d.resources, d.parts);
    let dangerous = dangerous_in(d.apps, d.definitions);
    d.apps
        .held()
        .iter()
        .all(|a| app_good(a, d, &provided, dangerous))
}

fn app_good(a: &App, d: &Device, provided: &Table<Provided, 128>, dangerous: [bool; 64]) -> bool
    ensures { result
        ≡ good_row_by (definitions_in d.now.definitions) (parts_in d.now.parts) (list_in provided.now) dangerous
        (row_of a.now) }
{
    manifest_good(a, d, provided)
        && grants_good(a, dangerous)
        && bytes_are_groups(&a.groups)
        && bytes_distinct(&a.grants)
        && bytes_distinct(&a.groups)
}

// The app's entries would make a good manifest.
fn manifest_good(a: &App, d: &Device, provided: &Table<Provided, 128>) -> bool
    ensures { result
        ≡ good_manifest_by (definitions_in d.now.definitions) (parts_in d.now.parts) (list_in provided.now)
        (row_of a.now).app }
{
    (a.number != 0)
        && (a.signer != 0)
        && uses_good(&a.uses)
        && definitions_good(&d.definitions, a.number)
        && parts_good(&d.parts, a.number)
        && resources_good(provided, a.number)
}

fn uses_good(t: &Table<u8, 32>) -> bool
    ensures { result ≡ good_uses (list_in t.now) }
{
    few_rising(t.held(), USES, |_| true, |p| u32::from(*p), |p| *p <= 63)
}

fn definitions_good(t: &Definitions, app: u16) -> bool
    ensures { result ≡ good_defines (defines_of app (definitions_in t.now)) }
{
    few_rising(
        t.held(),
        DEFINES,
        |d| d.app == app,
        |d| u32::from(d.define.permission),
        |d| manifest::good_define(d.define),
    )
}

fn parts_good(t: &Parts, app: u16) -> bool
    ensures { result ≡ good_components (components_of app (parts_in t.now)) }
{
    few_rising(
        t.held(),
        COMPONENTS,
        |k| k.app == app,
        |k| u32::from(k.component.number),
        |k| manifest::good_component(k.component),
    )
}

fn resources_good(t: &Table<Provided, 128>, app: u16) -> bool
    ensures { result ≡ good_provided app (list_in t.now) }
{
    few_rising(
        t.held(),
        RESOURCES,
        |p| p.provider.app == app,
        |p| manifest::resource_key(p.resource),
        |p| (0 < p.resource.uri) & (p.provider.component.kind == 4),
    )
}

fn provided_in(t: &Resources, parts: Parts) -> Table<Provided, 128>
    ensures { list_in result ≡ map (with_provider (parts_in parts)) (resources_in t.now) }
{
    let mut provided = Table::empty(Provided::default());
    for resource in t.held() {
        provided.push(Provided {
            provider: part_at(parts, resource.provider),
            resource: *resource,
        });
    }
    provided
}

// The component of a number, with its app; all zero where there is none.
fn part_at(parts: Parts, number: u16) -> Part
    ensures { result ≡ part_or (parts_in parts) number }
{
    tables::part_of(parts, number).unwrap_or_default()
}

// ---- grants and groups

// Which of the permissions 0 to 63 are defined and dangerous; `dangerous[p]` says so of permission p. A cast, since a
// place below 64 fits, and `try_from` would add a branch that is never taken.
fn dangerous_in(apps: Apps, definitions: Definitions) -> [bool; 64]
    ensures { result ≡ dangerous_in (rows_in apps) (definitions_in definitions) }
{
    std::array::from_fn(|p| is_dangerous(apps, definitions, p as u16))
}

fn is_dangerous(apps: Apps, definitions: Definitions, permission: u16) -> bool
    ensures { result ≡ is_dangerous (rows_in apps) (definitions_in definitions) permission }
{
    tables::known_of(apps, definitions, permission).is_some_and(|k| k.level == 1)
}

// The app's grants are listed, dangerous permissions.
fn grants_good(a: &App, dangerous: [bool; 64]) -> bool
    ensures { result ≡ all (good_grant_by dangerous (row_of a.now).app) (list_in a.now.grants) }
{
    a.grants.held().iter().all(|p| grant_good(a, dangerous, *p))
}

fn grant_good(a: &App, dangerous: [bool; 64], permission: u8) -> bool
    ensures { result ≡ good_grant_by dangerous (row_of a.now).app permission }
{
    tables::is_on(&a.uses, u16::from(permission))
        && dangerous
            .get(usize::from(permission))
            .copied()
            .unwrap_or(false)
}

fn bytes_are_groups(t: &Table<u8, 15>) -> bool
    ensures { result ≡ all is_group (list_in t.now) }
{
    t.held().iter().all(|n| (1..=15).contains(n))
}

fn bytes_distinct<const ROOM: usize>(t: &Table<u8, ROOM>) -> bool
    ensures { result ≡ distinct eqb (list_in t.now) }
{
    distinct(t.held(), |m, n| *m == *n)
}

// ---- instances

fn runs_good(d: &Device) -> bool
    ensures { result ≡ good_runs (parts_in d.now.parts) (instances_in d.now.instances) }
{
    instances_distinct(&d.instances) && instances_good(&d.instances, d.parts)
}

fn instances_distinct(t: &Instances) -> bool
    ensures { result ≡ distinct same_instance (instances_in t.now) }
{
    distinct(t.list.held(), |i, j| i.number == j.number)
}

fn instances_good(t: &Instances, parts: Parts) -> bool
    ensures { result ≡ all (good_instance (parts_in parts)) (instances_in t.now) }
{
    t.list.held().iter().all(|i| instance_good(i, parts))
}

fn instance_good(i: &Instance, parts: Parts) -> bool
    ensures { result ≡ good_instance (parts_in parts) i.now }
{
    (1..=64).contains(&i.number) && can_run(parts, i.component)
}

fn can_run(parts: Parts, component: u16) -> bool
    ensures { result ≡ test (part_at (parts_in parts) component) (λ k. not (is_provider k.component)) }
{
    tables::part_of(parts, component).is_some_and(|k| k.component.kind != 4)
}

// ---- loans

fn lending_good(d: &Device, loans: &Table<Loan, 128>) -> bool
    ensures { result
        ≡ good_lending (rows_in d.now.apps) (parts_in d.now.parts) (resources_in d.now.resources)
        (instances_in d.now.instances) (list_in loans.now) }
{
    loans_good(d, loans) && loans_distinct(loans)
}

fn loans_good(d: &Device, loans: &Table<Loan, 128>) -> bool
    ensures { result
        ≡ all (good_loan (rows_in d.now.apps) (parts_in d.now.parts) (resources_in d.now.resources)
        (instances_in d.now.instances)) (list_in loans.now) }
{
    loans.held().iter().all(|x| loan_good(x, d))
}

// All tests of a loan but that it is the only one.
#[tactic(auto, unfolding(rules::specs::Action::is_operations))]
fn loan_good(x: &Loan, d: &Device) -> bool
    ensures { result
        ≡ good_loan (rows_in d.now.apps) (parts_in d.now.parts) (resources_in d.now.resources)
        (instances_in d.now.instances) x.now }
{
    (1..=3).contains(&x.operations)
        && live(x, d)
        && tables::has_resource(d.resources, x.provider, x.uri)
        && shares(d.parts, x.provider)
}

fn shares(parts: Parts, provider: u16) -> bool
    ensures { result ≡ test (part_at (parts_in parts) provider) is_sharing_provider }
{
    tables::part_of(parts, provider).is_some_and(|k| {
        (k.component.kind == 4) & (k.component.shares == 1)
    })
}

// The receiver is looked for in the table of its kind only.
fn live(x: &Loan, d: &Device) -> bool
    ensures { result ≡ live_in (rows_in d.now.apps) (instances_in d.now.instances) x.now }
{
    match x.kind {
        1 => tables::has_instance(d.instances, x.receiver),
        2 => installed(d.apps, x.receiver),
        _ => false,
    }
}

fn loans_distinct(t: &Table<Loan, 128>) -> bool
    ensures { result ≡ distinct same_loan (list_in t.now) }
{
    distinct(t.held(), |x, y| {
        ((x.kind == y.kind) & (x.receiver == y.receiver))
            & ((x.provider == y.provider) & (x.uri == y.uri))
    })
}

// ---- helpers

// The count is not past the array, and all is empty past the count. Private, as the two below: it takes a closure.
fn padded<T, const ROOM: usize, F: Fn(&T) -> bool>(table: &Table<T, ROOM>, is_empty: F) -> bool
    requires { F.IsAlwaysCallable is_empty }
    ensures { (test : T → Bool) → Tells F.Fn is_empty test
        → result ≡ pads test ROOM table.now.entries table.now.count }
{
    let Some(unused) = table.entries.get(table.count..) else {
        return false;
    };
    // A `for`, here and in `distinct`, and no `all` or `any`: of a closure that calls a parameter the check learns too
    // little.
    for entry in unused {
        if !is_empty(entry) {
            return false;
        }
    }
    true
}

// No two entries are the same. The list is taken apart from its front, as the definition does it.
fn distinct<T, F: Fn(&T, &T) -> bool>(list: &[T], same: F) -> bool
    requires { F.IsAlwaysCallable same }
    ensures { (equal : T → T → Bool) → TellsSame F.Fn same equal → result ≡ distinct equal list.now }
{
    let mut left = list;
    while let Some((entry, rest)) = left.split_first() {
        for other in rest {
            if same(entry, other) {
                return false;
            }
        }
        left = rest;
    }
    true
}

// There is room for the entries that pass a test, each of them is good, and their keys rise from above 0.
fn few_rising<T, M: Fn(&T) -> bool, K: Fn(&T) -> u32, G: Fn(&T) -> bool>(
    list: &[T],
    room: u8,
    is_mine: M,
    key: K,
    is_good: G,
) -> bool
    requires mine { M.IsAlwaysCallable is_mine }
    requires key { K.IsAlwaysCallable key }
    requires good { G.IsAlwaysCallable is_good }
    ensures { (mine : T → Bool) (by : T → ℕ) (ok : T → Bool)
        → Tells M.Fn is_mine mine → Says K.Fn key by → Tells G.Fn is_good ok
        → result ≡ few_rising mine by ok room 0 list.now }
{
    let mut left = room;
    let mut low = 0;
    for entry in list {
        if is_mine(entry) {
            let next = key(entry);
            let fits = (0 < left) & ((low < next) & is_good(entry));
            if !fits {
                return false;
            }
            left -= 1;
            low = next;
        }
    }
    true
}
