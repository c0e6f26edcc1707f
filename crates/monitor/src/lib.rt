//! One step of the monitor: the validity test, the answer, and the tables after it.
#![tactic(auto)]

ghost use Rattle.std.specs.Prelude.{ℕ, ◌≡◌, true, [], ◌+◌, ◌*◌, ◌^◌, ◌<◌, length};
ghost use Rattle.manifest.specs.Layout.{u8_at, entries, manifest_of};
ghost use Rattle.rules.specs.Action.{on_apps, install, uninstall, on_grants};
ghost use Rattle.rules.specs.Action.{on_runs, start, stop, write, on_loans, lend, withdraw};
ghost use Rattle.state.specs.Stored.{app_from, model_of, valid_stored};
ghost use Rattle.tables.specs.Looking.{receiver_of};
ghost use Rattle.loans.specs.Asked.{action_from};
ghost use Rattle.monitor.specs.Stepped.{answer_to, stepped_by, stepped};
ghost use Rattle.state.specs.Step.{step_answer, step_device, step_lent};
ghost use Rattle.monitor.specs.Made.{asking, with_lent, grant_made, write_made, start_made};
ghost use Rattle.monitor.specs.Made.{stop_made, uninstall_made, narrowed};
ghost use Rattle.monitor.specs.Installing.{append_all, Steps, new_row, add_use, Within};
ghost use Rattle.monitor.specs.Installing.{definitions_made, parts_made, resources_made, install_made};

use loans::{Asked, Loans};
use manifest::{Section, Sections};
use rules::{Answer, Definition, Done, Instance, Loan, Part, Reason};
use state::{App, Definitions, Device, Parts, Resources, Table};
use tables::{Change, Receiver};

/// What a step leaves, and what comes back.
#[derive(Clone, Copy)]
pub struct Stepped {
    pub device: Device,
    pub lent: [Loan; 128],
    pub answer: Answer,
}

/// What comes back of a step that leaves its loan table where it is lent.
#[derive(Clone, Copy)]
pub struct Outcome {
    pub device: Device,
    pub answer: Answer,
}

/// One step over a lent loan table: only the records that change are written. A table that has not 128 records is
/// refused with its device, and both stay as they are.
pub fn step(d: Device, lent: &mut [Loan], action: &[u8], bytes: &[u8]) -> Outcome
    ensures { (result ≡ record {
      device = step_device d lent.old action.now bytes.now;
      answer = step_answer d lent.old action.now bytes.now;
    })
        × (lent.new ≡ step_lent d lent.old action.now bytes.now) }
{
    let out = loans::copy_out(lent);
    if out.length != 128 {
        return Outcome {
            device: d,
            answer: Err(Reason::StateNotValid),
        };
    }
    let s = step_table(d, out.table, action, bytes);
    let range = loans::changed(out.table, s.lent);
    loans::write_records(lent, s.lent, range);
    Outcome {
        device: s.device,
        answer: s.answer,
    }
}

/// One step over the loan table by value: a device that is not valid with its loan table is refused and left as it is.
pub fn step_table(d: Device, lent: [Loan; 128], action: &[u8], bytes: &[u8]) -> Stepped
    ensures { result ≡ stepped d lent action.now bytes.now }
{
    if device::valid(d, lent) {
        let on = Valid { device: d, lent };
        return match loans::decode(action) {
            Some(asked) => on_asked(on, asked, bytes),
            None => on.unchanged(Err(Reason::MalformedAction)),
        };
    }
    Stepped {
        device: d,
        lent,
        answer: Err(Reason::StateNotValid),
    }
}

// ---- an action on a valid device

/// A device that is valid with its loan table.
#[derive(Clone, Copy)]
struct Valid {
    device: Device,
    lent: [Loan; 128],
    ghost valid: { valid_stored device lent ≡ true },
}

impl Valid {
    /// Both as they are, with the answer.
    fn unchanged(self, answer: Answer) -> Stepped
        ensures { result ≡ record { device = self.device; lent = self.lent; answer = answer } }
    {
        let Valid { device, lent } = self;
        Stepped {
            device,
            lent,
            answer,
        }
    }

    fn loans(self) -> Loans
        ensures { result ≡ record { entries = self.lent; count = self.device.lent } }
    {
        let entries = self.lent;
        Table {
            entries,
            count: self.device.lent,
        }
    }
}

// What the action makes of the device and its loan table.
#[tactic(auto, unfolding(loans::specs::Asked::action_from))]
fn on_asked(on: Valid, asked: Asked, bytes: &[u8]) -> Stepped
    ensures { result ≡ stepped_by on.device on.lent (action_from asked bytes.now) }
{
    match asked {
        Asked::Install { image, place: _ } => on_install(on, image, bytes),
        Asked::Uninstall { app } => on_uninstall(on, app),
        Asked::Grant { app, permission } => on_change(on, app, Change::AddGrant, permission),
        Asked::Revoke { app, permission } => on_change(on, app, Change::TakeGrant, permission),
        Asked::GrantGroup { app, group } => on_change(on, app, Change::AddGroup, group),
        Asked::RevokeGroup { app, group } => on_change(on, app, Change::TakeGroup, group),
        Asked::Start { component, caller } => on_start(on, component, caller),
        Asked::Stop { instance } => on_stop(on, instance),
        Asked::Read {
            provider,
            instance,
            uri,
        } => on.unchanged(answers::read(on.device, on.lent, provider, instance, uri)),
        Asked::Write {
            provider,
            instance,
            uri,
            value,
        } => on_write(on, provider, instance, uri, value),
        Asked::Lend {
            operations,
            provider,
            giver,
            uri,
            receiver,
        } => on_lend(on, operations, provider, giver, uri, receiver),
        Asked::Withdraw {
            operations,
            provider,
            instance,
            uri,
        } => on_withdraw(on, operations, provider, instance, uri),
        Asked::Ask { app, permission } => on.unchanged(answers::ask(on.device, app, permission)),
    }
}

// The bytes are a good manifest wherever the answer is done.
fn on_install(on: Valid, image: bool, bytes: &[u8]) -> Stepped
    ensures { result ≡ stepped_by on.device on.lent (on_apps (install image (manifest_of bytes.now))) }
{
    let Valid { device, lent } = on;
    let answer = answers::install(device, image, bytes);
    match answer {
        Err(_) => on.unchanged(answer),
        Ok(_) => match manifest::check(bytes) {
            None => on.unchanged(answer),
            Some(sections) => Stepped {
                device: Found { bytes, sections }.install_made(device, image),
                lent,
                answer,
            },
        },
    }
}

fn on_uninstall(on: Valid, app: u16) -> Stepped
    ensures { result ≡ stepped_by on.device on.lent (on_apps (uninstall app)) }
{
    let answer = answers::uninstall(on.device, app);
    match answer {
        Err(_) => on.unchanged(answer),
        Ok(_) => {
            let left = loans::reduce_uninstall(on.loans(), on.device.parts, app);
            with_loans(uninstall_made(on.device, app), left, answer)
        }
    }
}

fn on_change(on: Valid, app: u16, change: Change, member: u16) -> Stepped
    ensures { result ≡ stepped_by on.device on.lent (on_grants (asking change app member)) }
{
    let Valid { device, lent } = on;
    let answer = change_answer(device, app, change, member);
    match answer {
        Err(_) => on.unchanged(answer),
        // A grant that is done is of a number that fits: `try_from` would have a branch that is never taken.
        Ok(_) => Stepped {
            device: change_made(device, app, change, member as u8),
            lent,
            answer,
        },
    }
}

fn change_answer(d: Device, app: u16, change: Change, member: u16) -> Answer
    ensures { result ≡ answer_to (model_of d []) (on_grants (asking change app member)) }
{
    match change {
        Change::AddGrant => answers::grant(d, app, member),
        Change::TakeGrant => answers::revoke(d, app, member),
        Change::AddGroup => answers::grant_group(d, app, member),
        Change::TakeGroup => answers::revoke_group(d, app, member),
    }
}

fn on_start(on: Valid, component: u16, caller: u16) -> Stepped
    ensures { result ≡ stepped_by on.device on.lent (on_runs (start component caller)) }
{
    let Valid { device, lent } = on;
    let answer = answers::start(device, component, caller);
    match answer {
        Err(_) => on.unchanged(answer),
        // So is the number of a start that is done.
        Ok(Done { value, .. }) => Stepped {
            device: start_made(device, component, value as u8),
            lent,
            answer,
        },
    }
}

fn on_stop(on: Valid, instance: u16) -> Stepped
    ensures { result ≡ stepped_by on.device on.lent (on_runs (stop instance)) }
{
    let answer = answers::stop(on.device, instance);
    match answer {
        Err(_) => on.unchanged(answer),
        Ok(_) => {
            let left = loans::reduce_stop(on.loans(), instance);
            with_loans(stop_made(on.device, instance), left, answer)
        }
    }
}

fn on_write(on: Valid, provider: u16, instance: u16, uri: u16, value: u32) -> Stepped
    ensures { result ≡ stepped_by on.device on.lent (write provider instance uri value) }
{
    let Valid { device, lent } = on;
    let answer = answers::write(device, lent, provider, instance, uri, value);
    match answer {
        Err(_) => on.unchanged(answer),
        Ok(_) => Stepped {
            device: write_made(device, provider, uri, value),
            lent,
            answer,
        },
    }
}

// A receiver of a number past a loan's field is not there, and so the answer is a refusal.
fn on_lend(
    on: Valid,
    operations: u8,
    provider: u16,
    giver: u16,
    uri: u16,
    receiver: Receiver<u32>,
) -> Stepped
    ensures { result
        ≡ stepped_by on.device on.lent (on_loans (lend operations provider giver uri (receiver_of receiver))) }
{
    let answer = answers::lend(
        on.device, on.lent, operations, provider, giver, uri, receiver,
    );
    match (answer, narrow(receiver)) {
        (Ok(_), Some(to)) => {
            let left = loans::lend(on.loans(), to, provider, uri, operations);
            with_loans(on.device, left, answer)
        }
        _ => on.unchanged(answer),
    }
}

fn on_withdraw(on: Valid, operations: u8, provider: u16, instance: u16, uri: u16) -> Stepped
    ensures { result ≡ stepped_by on.device on.lent (on_loans (withdraw operations provider instance uri)) }
{
    let answer = answers::withdraw(on.device, operations, provider, instance, uri);
    match answer {
        Err(_) => on.unchanged(answer),
        Ok(_) => {
            let left = loans::reduce_withdraw(on.loans(), provider, uri, operations);
            with_loans(on.device, left, answer)
        }
    }
}

// A device with the loans that are left, and the answer.
fn with_loans(d: Device, left: Loans, answer: Answer) -> Stepped
    ensures { result ≡ record { device = with_lent d left.count; lent = left.entries; answer = answer } }
{
    let Table { entries, count } = left;
    Stepped {
        device: Device { lent: count, ..d },
        lent: entries,
        answer,
    }
}

// The receiver in the width of a loan's field, where its number fits.
fn narrow(receiver: Receiver<u32>) -> Option<Receiver<u16>>
    ensures { result ≡ narrowed receiver }
{
    match receiver {
        Receiver::Instance(n) => Some(Receiver::Instance(u16::try_from(n).ok()?)),
        Receiver::App(n) => Some(Receiver::App(u16::try_from(n).ok()?)),
    }
}

// ---- what a done action makes of the device

fn change_made(d: Device, app: u16, change: Change, member: u8) -> Device
    ensures { result ≡ grant_made d change app member }
{
    Device {
        apps: tables::change_app(d.apps, app, change, member),
        ..d
    }
}

fn write_made(d: Device, provider: u16, uri: u16, value: u32) -> Device
    ensures { result ≡ write_made d provider uri value }
{
    Device {
        resources: tables::write_value(d.resources, provider, uri, value),
        ..d
    }
}

fn start_made(d: Device, component: u16, number: u8) -> Device
    ensures { result ≡ start_made d component number }
{
    Device {
        instances: tables::append_instance(d.instances, Instance { number, component }),
        ..d
    }
}

fn stop_made(d: Device, instance: u16) -> Device
    ensures { result ≡ stop_made d d.lent instance }
{
    Device {
        instances: tables::remove_instance(d.instances, instance),
        ..d
    }
}

fn uninstall_made(d: Device, app: u16) -> Device
    ensures { result ≡ uninstall_made d d.lent app }
{
    let left = tables::remove_app(d.apps, app);
    Device {
        apps: tables::drop_grants(left, d.definitions, app),
        definitions: tables::remove_definitions(d.definitions, app),
        parts: tables::remove_parts(d.parts, app),
        resources: tables::remove_resources(d.resources, d.parts, app),
        ..d
    }
}

// ---- the entries of a manifest's sections

// A manifest's bytes, and the sections found in them.
#[derive(Clone, Copy)]
struct Found<'a> {
    bytes: &'a [u8],
    sections: Sections,
    ghost within: { Within sections (length bytes.now) },
}

impl<'a> Found<'a> {
    fn install_made(&self, d: Device, image: bool) -> Device
        ensures { result ≡ install_made self.now.bytes.now image self.now.sections d }
    {
        Device {
            apps: tables::append_app(d.apps, self.app_made(image)),
            definitions: self.definitions_made(d.definitions),
            parts: self.parts_made(d.parts),
            resources: self.resources_made(d.resources),
            ..d
        }
    }

    fn app_made(&self, image: bool) -> App
        ensures { result
            ≡ append_all add_use (app_from (new_row self.now.sections.app self.now.sections.signer image []))
            (entries (u8_at self.now.bytes.now) 1 self.now.sections.uses.first self.now.sections.uses.count) }
    {
        let s = self.bytes;
        let a = new_app(self.sections.app, self.sections.signer, image);
        append_all(
            a,
            self.sections.uses,
            1,
            |t, at| add_use(t, manifest::byte_at(s, at)),
        )
    }

    fn definitions_made(&self, definitions: Definitions) -> Definitions
        ensures { result ≡ definitions_made self.now.bytes.now self.now.sections definitions }
    {
        let s = self.bytes;
        let app = self.sections.app;
        append_all(definitions, self.sections.defines, 3, |t, at| {
            let define = manifest::define_at(s, at);
            tables::append_definition(t, Definition { app, define })
        })
    }

    fn parts_made(&self, parts: Parts) -> Parts
        ensures { result ≡ parts_made self.now.bytes.now self.now.sections parts }
    {
        let s = self.bytes;
        let app = self.sections.app;
        append_all(parts, self.sections.components, 8, |t, at| {
            let component = manifest::component_at(s, at);
            tables::append_part(t, Part { app, component })
        })
    }

    fn resources_made(&self, resources: Resources) -> Resources
        ensures { result ≡ resources_made self.now.bytes.now self.now.sections resources }
    {
        let s = self.bytes;
        append_all(
            resources,
            self.sections.resources,
            8,
            |t, at| tables::append_resource(t, manifest::resource_at(s, at)),
        )
    }
}

fn new_app(number: u16, signer: u32, image: bool) -> App
    ensures { result ≡ app_from (new_row number signer image []) }
{
    App {
        number,
        signer,
        image,
        ..App::default()
    }
}

fn add_use(app: App, permission: u8) -> App
    ensures { result ≡ add_use app permission }
{
    let mut a = app;
    a.uses.push(permission);
    a
}

// Each entry of a section put to a table in turn, by the byte at which it begins. Private, since it takes a closure.
fn append_all<T: Copy, F: Fn(T, usize) -> T>(
    table: T,
    section: Section,
    size: usize,
    append: F,
) -> T
    requires callable { F.IsAlwaysCallable append }
    requires ends { section.first + size * section.count < 2 ^ 64 }
    ensures { (step : T → ℕ → T) → Steps F.Fn append step
        → result ≡ append_all step table (entries (λ a. a) size section.first section.count) }
{
    let mut t = table;
    for k in 0..section.count {
        t = append(t, section.first + size * usize::from(k));
    }
    t
}
