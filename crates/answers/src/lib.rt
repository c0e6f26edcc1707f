//! The conditions of every action: for each action a function that gives its answer for every device.
//! The conditions come in the order of the refusals, so that the first that applies is the answer. The device and the
//! table lent with it are two arguments, as the contracts of the public functions have them.
#![tactic(auto)]

ghost use Rattle.std.specs.Prelude.{ℕ, ◌≡◌, not, ◌&&◌, ◌||◌, [], ◌+◌, ◌*◌, ◌≤◌, length, take, leb, ltb, eqb, Bool};
ghost use Rattle.std.specs.Prelude.{Some};
ghost use Rattle.manifest.specs.Layout.{manifest_of, laid_out, entries};
ghost use Rattle.manifest.specs.Verdict.{verdict_of};
ghost use Rattle.rules.specs.declared.Ground.TheVariants.{Nothing};
ghost use Rattle.rules.specs.Lists.{any, missing, test};
ghost use Rattle.rules.specs.Action.{grant, revoke, grant_group, revoke_group, stop, read, write, ask};
ghost use Rattle.rules.specs.Action.{is_operations};
ghost use Rattle.rules.specs.Action.{install, uninstall, lend, withdraw, on_apps, on_grants, on_runs, on_loans, query};
ghost use Rattle.rules.specs.Permissions.{known, dangerous};
ghost use Rattle.rules.specs.Grounds.{ground, provider, startable, running_app};
ghost use Rattle.rules.specs.Refusals.{clash, barred, app_may_start, person_may_start, grantable, is_group, groupable};
ghost use Rattle.rules.specs.Refusals.{is_running, lacking, lent_any, no_receiving_app, no_receiving_instance};
ghost use Rattle.rules.specs.Limits.{large};
ghost use Rattle.rules.specs.Answer.{done};
ghost use Rattle.state.specs.Listed.{list_in};
ghost use Rattle.state.specs.Stored.{row_of};
ghost use Rattle.state.specs.Tables.{is_loan};
ghost use Rattle.tables.specs.Closures.{Gives};
ghost use Rattle.tables.specs.Held.{apps_in, parts_in, instances_in};
ghost use Rattle.tables.specs.Finding.{is_app};
ghost use Rattle.tables.specs.Looking.{option_of, op_of, receiver_of, view_by, runner_in};
ghost use Rattle.answers.specs.Answering.{answer_in, view_in, access_in, grounds, is_of};
ghost use Rattle.answers.specs.Starting.{start_with, free_of};

use manifest::{Section, Sections};
use rules::{Answer, Done, Ground, Known, Loan, Part, Reason};
use state::{App, Apps, Device, Parts, Table};
use tables::Operation;

/// To whom a loan goes.
pub type Receiver = tables::Receiver<u32>;

// ---- questions

/// Does the app hold the permission?
pub fn ask(d: Device, app: u16, permission: u16) -> Answer
    ensures { result ≡ answer_in d [] (query (ask app permission)) }
{
    let app = tables::app_of(d.apps, app).ok_or(Reason::NoSuchApp)?;
    let known = tables::known_of(d.apps, d.definitions, permission).ok_or(Reason::Undefined)?;
    let held = tables::hold(d.apps, app, permission, known).is_held();
    done(u32::from(held))
}

// ---- grants

/// The person grants a permission to an app.
pub fn grant(d: Device, app: u16, permission: u16) -> Answer
    ensures { result ≡ answer_in d [] (on_grants (grant app permission)) }
{
    if tables::granted(d.apps, app, permission) {
        return Err(Reason::AlreadyThere);
    }
    let app = tables::app_of(d.apps, app).ok_or(Reason::NoSuchApp)?;
    let known = tables::known_of(d.apps, d.definitions, permission).ok_or(Reason::Undefined)?;
    if !grantable(app, permission, known) {
        return Err(Reason::CannotBeGranted);
    }
    done(0)
}

/// The person takes a permission back from an app.
pub fn revoke(d: Device, app: u16, permission: u16) -> Answer
    ensures { result ≡ answer_in d [] (on_grants (revoke app permission)) }
{
    tables::app_of(d.apps, app).ok_or(Reason::NoSuchApp)?;
    tables::known_of(d.apps, d.definitions, permission).ok_or(Reason::Undefined)?;
    if !tables::granted(d.apps, app, permission) {
        return Err(Reason::NothingToTakeBack);
    }
    done(0)
}

/// The person grants a group to an app.
pub fn grant_group(d: Device, app: u16, group: u16) -> Answer
    ensures { result ≡ answer_in d [] (on_grants (grant_group app group)) }
{
    if tables::grouped(d.apps, app, group) {
        return Err(Reason::AlreadyThere);
    }
    let app = tables::app_of(d.apps, app).ok_or(Reason::NoSuchApp)?;
    if !is_group(group) {
        return Err(Reason::Undefined);
    }
    if !groupable(d, app, group) {
        return Err(Reason::CannotBeGranted);
    }
    done(0)
}

/// The person takes a group back from an app.
pub fn revoke_group(d: Device, app: u16, group: u16) -> Answer
    ensures { result ≡ answer_in d [] (on_grants (revoke_group app group)) }
{
    tables::app_of(d.apps, app).ok_or(Reason::NoSuchApp)?;
    if !is_group(group) {
        return Err(Reason::Undefined);
    }
    if !tables::grouped(d.apps, app, group) {
        return Err(Reason::NothingToTakeBack);
    }
    done(0)
}

// ---- instances

/// The person, caller 0 in document 01, or an instance starts a component. The new number is the lowest that the
/// digits of `running` leave free.
pub fn start(d: Device, component: u16, caller: u16) -> Answer
    ensures { result ≡ start_with (free_of d.instances.running) (view_in d []) component caller }
{
    let part = startable(d.parts, component).ok_or(Reason::NoSuchComponent)?;
    if no_caller(d, caller) {
        return Err(Reason::NoSuchInstance);
    }
    if barred(d, part, caller) {
        return Err(Reason::NotPermitted);
    }
    let n = tables::next_number(d.instances);
    if 64 < n {
        return Err(Reason::NoRoom);
    }
    done(n)
}

/// An instance stops.
pub fn stop(d: Device, instance: u16) -> Answer
    ensures { result ≡ answer_in d [] (on_runs (stop instance)) }
{
    tables::instance_of(d.instances, instance).ok_or(Reason::NoSuchInstance)?;
    done(0)
}

// ---- resources

/// An instance reads a resource.
pub fn read(d: Device, lent: [Loan; 128], provider: u16, instance: u16, uri: u16) -> Answer
    ensures { result ≡ answer_in d lent (query (read provider instance uri)) }
{
    access(d, lent, provider, instance, uri, Operation::Read)
}

/// An instance writes a value to a resource.
pub fn write(
    d: Device,
    lent: [Loan; 128],
    provider: u16,
    instance: u16,
    uri: u16,
    value: u32,
) -> Answer
    ensures { result ≡ answer_in d lent (write provider instance uri value) }
{
    let done = access(d, lent, provider, instance, uri, Operation::Write)?;
    Ok(Done { value, ..done })
}

// ---- loans

/// An instance takes the loans on a resource back, by its app's own right.
pub fn withdraw(d: Device, operations: u8, provider: u16, instance: u16, uri: u16) -> Answer
    ensures { result ≡ answer_in d [] (on_loans (withdraw operations provider instance uri)) }
{
    if !is_operations(operations) {
        return Err(Reason::MalformedAction);
    }
    let part = provider_of(d.parts, provider).ok_or(Reason::NoSuchComponent)?;
    let app = tables::runner(d.apps, d.parts, d.instances, instance).ok_or(Reason::NoSuchInstance)?;
    tables::resource_of(d.resources, provider, uri).ok_or(Reason::NoSuchResource)?;
    let read = tables::ground_right(d.apps, d.definitions, app, part, Operation::Read);
    let write = tables::ground_right(d.apps, d.definitions, app, part, Operation::Write);
    if lacking(operations, read, write) {
        return Err(Reason::NotPermitted);
    }
    done(0)
}

/// An instance lends operations on a resource to an instance or an app. A loan that is there already takes no room.
pub fn lend(
    d: Device,
    lent: [Loan; 128],
    operations: u8,
    provider: u16,
    instance: u16,
    uri: u16,
    receiver: Receiver,
) -> Answer
    ensures { result ≡ answer_in d lent (on_loans (lend operations provider instance uri (receiver_of receiver))) }
{
    if !is_operations(operations) {
        return Err(Reason::MalformedAction);
    }
    if no_receiving_app(d, receiver) {
        return Err(Reason::NoSuchApp);
    }
    let part = provider_of(d.parts, provider).ok_or(Reason::NoSuchComponent)?;
    let app = tables::runner(d.apps, d.parts, d.instances, instance).ok_or(Reason::NoSuchInstance)?;
    if no_receiving_instance(d, receiver) {
        return Err(Reason::NoSuchInstance);
    }
    tables::resource_of(d.resources, provider, uri).ok_or(Reason::NoSuchResource)?;
    let read = ground_of(d, lent, app, part, instance, uri, Operation::Read);
    let write = ground_of(d, lent, app, part, instance, uri, Operation::Write);
    if (part.component.shares != 1) | lacking(operations, read, write) {
        return Err(Reason::NotPermitted);
    }
    if !lent_any(d, lent, receiver, provider, uri) & is_full(d, lent) {
        return Err(Reason::NoRoom);
    }
    done(0)
}

// ---- apps

/// An app comes onto the device, or is part of its image, with the bytes of its manifest.
pub fn install(d: Device, image: bool, bytes: &[u8]) -> Answer
    ensures { result ≡ answer_in d [] (on_apps (install image (manifest_of bytes.now))) }
{
    let Some(m) = manifest::check(bytes) else {
        return Err(Reason::MalformedManifest);
    };
    if clashes(d, bytes, m) {
        return Err(Reason::AlreadyThere);
    }
    if is_crowded(d, m) {
        return Err(Reason::NoRoom);
    }
    done(0)
}

/// An app is taken off the device.
pub fn uninstall(d: Device, app: u16) -> Answer
    ensures { result ≡ answer_in d [] (on_apps (uninstall app)) }
{
    let found = tables::app_of(d.apps, app).ok_or(Reason::NoSuchApp)?;
    if is_running(d, app) {
        return Err(Reason::InUse);
    }
    if found.image {
        return Err(Reason::PartOfTheImage);
    }
    done(0)
}

// An action other than a read or a write is done, with its value.
fn done(value: u32) -> Answer
    ensures { result ≡ done Nothing value }
{
    Ok(Done {
        ground: Ground::Nothing,
        value,
    })
}

// ---- install

fn clashes(d: Device, bytes: &[u8], m: Sections) -> bool
    requires { verdict_of bytes.now ≡ Some m }
    ensures { result ≡ clash (view_in d []) (laid_out bytes.now) }
{
    tables::has_app(d.apps, m.app)
        || (any_entry(m.components, 8, |at| {
            tables::has_part(d.parts, manifest::component_at(bytes, at).number)
        }) || any_entry(m.defines, 3, |at| {
            let permission = u16::from(manifest::define_at(bytes, at).permission);
            tables::known_of(d.apps, d.definitions, permission).is_some()
        }))
}

// Does an entry of a section pass a test? The test is given its place. Private, since it takes a closure.
fn any_entry<F: Fn(usize) -> bool>(section: Section, size: usize, passes: F) -> bool
    requires callable { F.IsAlwaysCallable passes }
    requires fits { section.first + size * section.count ≤ 9223372036854775807 }
    ensures { (test : ℕ → Bool) → Gives F.Fn passes test
        → result ≡ any test (entries (λ at. at) size section.first section.count) }
{
    for k in 0..usize::from(section.count) {
        if passes(section.first + size * k) {
            return true;
        }
    }
    false
}

fn is_crowded(d: Device, m: Sections) -> bool
    ensures { result
        ≡ leb 16 (length (apps_in d.apps))
        || (ltb 64 (length (parts_in d.parts) + m.components.count)
        || ltb 128 (length (list_in d.resources) + m.resources.count)) }
{
    16 <= d.apps.held().len()
        || 64 < d.parts.held().len() + usize::from(m.components.count)
        || 128 < d.resources.held().len() + usize::from(m.resources.count)
}

// ---- apps and permissions

// The app lists the permission, and it is dangerous.
#[tactic(auto, unfolding(rules::specs::Refusals::grantable, rules::specs::Permissions::dangerous))]
fn grantable(app: App, permission: u16, known: Known) -> bool
    ensures { result ≡ grantable (row_of app).app permission known }
{
    tables::is_on(&app.uses, permission) & (known.level == 1)
}

#[tactic(auto, unfolding(rules::specs::Refusals::is_group))]
fn is_group(group: u16) -> bool
    ensures { result ≡ is_group group }
{
    (1..=15).contains(&group)
}

// The app lists a dangerous permission of the group.
fn groupable(d: Device, app: App, group: u16) -> bool
    ensures { result ≡ groupable (view_in d []) (row_of app).app group }
{
    app.uses.held().iter().any(|p| in_group(d, *p, group))
}

// Is the permission defined, dangerous and of the group?
fn in_group(d: Device, permission: u8, group: u16) -> bool
    ensures { result ≡ test (known (view_in d []) permission) (λ k. dangerous k && eqb k.group group) }
{
    match tables::known_of(d.apps, d.definitions, u16::from(permission)) {
        Some(known) => (known.level == 1) & (u16::from(known.group) == group),
        None => false,
    }
}

// ---- components and instances

fn provider_of(parts: Parts, number: u16) -> Option<Part>
    ensures { result ≡ option_of (provider (view_by [] [] (parts_in parts) []) number) }
{
    tables::part_of(parts, number).filter(|k| k.component.kind == 4)
}

fn startable(parts: Parts, number: u16) -> Option<Part>
    ensures { result ≡ option_of (startable (view_by [] [] (parts_in parts) []) number) }
{
    tables::part_of(parts, number).filter(|k| k.component.kind != 4)
}

// The person is always there.
fn no_caller(d: Device, caller: u16) -> bool
    ensures { result ≡ not (eqb caller 0) && missing (running_app (view_in d []) caller) }
{
    (caller != 0) && tables::runner(d.apps, d.parts, d.instances, caller).is_none()
}

fn barred(d: Device, part: Part, caller: u16) -> bool
    ensures { result ≡ barred (view_in d []) part caller }
{
    if caller == 0 {
        return !person_may_start(part);
    }
    match tables::runner(d.apps, d.parts, d.instances, caller) {
        Some(app) => !app_may_start(d, app, part),
        None => false,
    }
}

fn person_may_start(part: Part) -> bool
    ensures { result ≡ person_may_start part }
{
    (part.component.exported == 1) & (part.component.kind == 1)
}

// A component of its own app, or an exported one that its start permission allows.
fn app_may_start(d: Device, app: App, part: Part) -> bool
    ensures { result ≡ app_may_start (view_in d []) (row_of app).app part }
{
    (app.number == part.app)
        || (part.component.exported == 1
            && tables::allows(d.apps, d.definitions, app, part.component.start))
}

// By the numbers 1 to 64, as instances are numbered.
fn is_running(d: Device, app: u16) -> bool
    ensures { result ≡ is_running large (view_in d []) app }
{
    (1..65).any(|n| runs_for(d, n, app))
}

// Is the instance of a number of the app? By the first component of its component's number.
fn runs_for(d: Device, number: u16, app: u16) -> bool
    ensures { result ≡ is_of (view_in d []) app number }
{
    let Some(instance) = tables::instance_of(d.instances, number) else {
        return false;
    };
    match tables::part_of(d.parts, instance.component) {
        Some(part) => part.app == app,
        None => false,
    }
}

// ---- grounds

// A done access names its ground and the stored value.
fn access(
    d: Device,
    lent: [Loan; 128],
    provider: u16,
    instance: u16,
    uri: u16,
    operation: Operation,
) -> Answer
    ensures { result ≡ access_in (view_in d lent) provider instance uri (op_of operation) }
{
    let part = provider_of(d.parts, provider).ok_or(Reason::NoSuchComponent)?;
    let app = tables::runner(d.apps, d.parts, d.instances, instance).ok_or(Reason::NoSuchInstance)?;
    let Some(resource) = tables::resource_of(d.resources, provider, uri) else {
        return Err(Reason::NoSuchResource);
    };
    let ground = ground_of(d, lent, app, part, instance, uri, operation);
    if ground == Ground::Nothing {
        return Err(Reason::NotPermitted);
    }
    Ok(Done {
        ground,
        value: resource.value,
    })
}

// By the right of the app, or by a loan.
fn ground_of(
    d: Device,
    lent: [Loan; 128],
    app: App,
    provider: Part,
    instance: u16,
    uri: u16,
    operation: Operation,
) -> Ground
    ensures { result ≡ ground (view_in d lent) instance (row_of app).app provider uri (op_of operation) }
{
    let right = tables::ground_right(d.apps, d.definitions, app, provider, operation);
    if right != Ground::Nothing {
        return right;
    }
    let number = provider.component.number;
    let to_instance = Receiver::Instance(u32::from(instance));
    if is_lent(d, lent, to_instance, number, uri, operation) {
        return Ground::LoanToInstance;
    }
    let to_app = Receiver::App(u32::from(app.number));
    if is_lent(d, lent, to_app, number, uri, operation) {
        return Ground::LoanToApp;
    }
    Ground::Nothing
}

// Has an operation that is asked for no ground, of those of reading and of writing?
fn lacking(operations: u8, read: Ground, write: Ground) -> bool
    ensures { result ≡ lacking operations (grounds read write) }
{
    (Operation::Read.is_in(operations) & (read == Ground::Nothing))
        | (Operation::Write.is_in(operations) & (write == Ground::Nothing))
}

#[tactic(auto, unfolding(rules::specs::Action::is_operations))]
fn is_operations(operations: u8) -> bool
    ensures { result ≡ is_operations operations }
{
    (1..=3).contains(&operations)
}

// ---- loans

// Does a loan to the receiver on the resource carry the operation?
fn is_lent(
    d: Device,
    lent: [Loan; 128],
    receiver: Receiver,
    provider: u16,
    uri: u16,
    operation: Operation,
) -> bool
    ensures { result ≡ (view_in d lent).lent (receiver_of receiver) provider uri (op_of operation) }
{
    let loans = loans_of(d, lent);
    loans.held().iter().any(|x| is_loan(x, receiver, provider, uri)
        && operation.is_in(x.operations))
}

fn lent_any(d: Device, lent: [Loan; 128], receiver: Receiver, provider: u16, uri: u16) -> bool
    ensures { result ≡ lent_any (view_in d lent) (receiver_of receiver) provider uri }
{
    is_lent(d, lent, receiver, provider, uri, Operation::Read)
        || is_lent(d, lent, receiver, provider, uri, Operation::Write)
}

// The loans lent with the device.
fn loans_of(d: Device, lent: [Loan; 128]) -> Table<Loan, 128>
    ensures { list_in result ≡ take d.lent lent }
{
    Table {
        entries: lent,
        count: d.lent,
    }
}

fn is_full(d: Device, lent: [Loan; 128]) -> bool
    ensures { result ≡ leb 128 (length (take d.lent lent)) }
{
    128 <= loans_of(d, lent).held().len()
}

// At the width of a receiver that an action names; the crate loans asks the same at a loan's width.
fn is_loan(loan: &Loan, receiver: Receiver, provider: u16, uri: u16) -> bool
    ensures { result ≡ is_loan (receiver_of receiver) provider uri loan.now }
{
    ((loan.kind == receiver.kind()) & (u32::from(loan.receiver) == receiver.number()))
        & ((loan.provider == provider) & (loan.uri == uri))
}

fn no_receiving_app(d: Device, receiver: Receiver) -> bool
    ensures { result ≡ no_receiving_app (view_in d []) (receiver_of receiver) }
{
    match receiver {
        Receiver::Instance(_) => false,
        Receiver::App(n) => !has_wide_app(d.apps, n),
    }
}

fn no_receiving_instance(d: Device, receiver: Receiver) -> bool
    ensures { result ≡ no_receiving_instance (view_in d []) (receiver_of receiver) }
{
    match receiver {
        Receiver::Instance(n) => wide_runner(d, n).is_none(),
        Receiver::App(_) => false,
    }
}

// At the width of a receiver. `tables::has_app` at this width would have every other caller widen its number, here and
// below.
fn has_wide_app(apps: Apps, number: u32) -> bool
    ensures { result ≡ any (is_app number) (apps_in apps) }
{
    apps.held().iter().any(|a| u32::from(a.number) == number)
}

// The app of a running instance, at the width of a receiver.
fn wide_runner(d: Device, number: u32) -> Option<App>
    ensures { result ≡ option_of (runner_in (apps_in d.apps) (parts_in d.parts) (instances_in d.instances) number) }
{
    let instance = d
        .instances
        .list
        .held()
        .iter()
        .find(|i| u32::from(i.number) == number)
        .copied()?;
    let part = tables::part_of(d.parts, instance.component)?;
    tables::app_of(d.apps, part.app)
}
