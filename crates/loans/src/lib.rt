//! What an action's bytes ask for, and the loan table: by value, and lent in place.
//! Every function answers for every input, also a table with a count past its array or garbage past its count.
#![tactic(auto)]

ghost use Rattle.std.specs.Prelude.{◌≡◌, map};
ghost use Rattle.rules.specs.Lists.{any, keep};
ghost use Rattle.rules.specs.Action.{operations_of};
ghost use Rattle.state.specs.Tables.{is_to, is_on, is_loan, lent_in};
ghost use Rattle.state.specs.Effects.{loan_of, with_operations, kept, carries_any, reduce, widened};
ghost use Rattle.tables.specs.Closures.{Gives};
ghost use Rattle.tables.specs.Held.{parts_in};
ghost use Rattle.tables.specs.Looking.{op_of, receiver_of};
ghost use Rattle.loans.specs.Asked.{record_of, well_formed, asked_by, asked_of};
ghost use Rattle.loans.specs.Held.{loans_in, loans_table, by_op, appended, lend_in};
ghost use Rattle.loans.specs.Held.{keeps_stop, keeps_uninstall, keeps_withdraw};
ghost use Rattle.loans.specs.Lent.{no_loans, lent_from, written, first_change, after_change, changed_in};

use rules::Loan;
use state::{Parts, Table};
use tables::Operation;

/// What an action asks for. A lend's receiver and a written value stand at full width. Operations are a byte and no
/// enum, since an action with a byte that names none gets its refusal.
#[derive(Clone, Copy, PartialEq, Eq)]
pub enum Asked {
    Install {
        image: bool,
        place: u16,
    },
    Uninstall {
        app: u16,
    },
    Grant {
        app: u16,
        permission: u16,
    },
    Revoke {
        app: u16,
        permission: u16,
    },
    GrantGroup {
        app: u16,
        group: u16,
    },
    RevokeGroup {
        app: u16,
        group: u16,
    },
    Start {
        component: u16,
        caller: u16,
    },
    Stop {
        instance: u16,
    },
    Read {
        provider: u16,
        instance: u16,
        uri: u16,
    },
    Write {
        provider: u16,
        instance: u16,
        uri: u16,
        value: u32,
    },
    Lend {
        operations: u8,
        provider: u16,
        giver: u16,
        uri: u16,
        receiver: tables::Receiver<u32>,
    },
    Withdraw {
        operations: u8,
        provider: u16,
        instance: u16,
        uri: u16,
    },
    Ask {
        app: u16,
        permission: u16,
    },
}

/// The loan table by value; places past the count are zero.
pub type Loans = Table<Loan, 128>;

/// To whom a loan is.
pub type Receiver = tables::Receiver<u16>;

/// A copy of a lent table: its first 128 records, zero where one is missing, and how many it has.
// `length` stays beside the array: it is the slice's own, also past 128, and `lent_from` in `copy_out` says both.
#[derive(Clone, Copy)]
pub struct Lent {
    pub table: [Loan; 128],
    pub length: usize,
}

/// The records from `from` on, up to `to`; none where `to` is not above `from`.
// No `std::ops::Range`, which is not `Copy`.
#[derive(Clone, Copy)]
pub struct Range {
    pub from: usize,
    pub to: usize,
}

// The numbers of an action record, in their order. The code is a byte, since every byte of a record is answered for.
#[derive(Clone, Copy)]
struct Record {
    code: u8,
    a: u8,
    b: u16,
    c: u16,
    d: u16,
    e: u32,
}

// ---- action records

/// What the bytes of an action ask for; bytes that are no action record ask for nothing.
#[tactic(auto, unfolding(crate::specs::Asked::asked_of))]
pub fn decode(action: &[u8]) -> Option<Asked>
    ensures { result ≡ asked_of action.now }
{
    if action.len() != 12 {
        return None;
    }
    let r = record_of(action);
    if well_formed(r) {
        return asked_by(r);
    }
    None
}

// Little-endian; a byte past the end is 0.
fn record_of(s: &[u8]) -> Record
    ensures { result ≡ record_of s.now }
{
    let at = |place: usize| manifest::byte_at(s, place);
    Record {
        code: at(0),
        a: at(1),
        b: u16::from_le_bytes([at(2), at(3)]),
        c: u16::from_le_bytes([at(4), at(5)]),
        d: u16::from_le_bytes([at(6), at(7)]),
        e: u32::from_le_bytes([at(8), at(9), at(10), at(11)]),
    }
}

// The fields are as the table of action records says: 0 where none is listed, image 0 or 1, operations 1 to 3.
fn well_formed(r: Record) -> bool
    ensures { result ≡ well_formed r }
{
    let a = r.a == 0;
    let c = r.c == 0;
    let d = r.d == 0;
    let e = r.e == 0;
    let operations = (1 <= r.a) & (r.a <= 3);
    match r.code {
        1 => (r.a <= 1) & (c & (d & e)),
        2 => a & (c & (d & e)),
        3 => a & (d & e),
        4 => a & (d & e),
        5 => a & (d & e),
        6 => a & (d & e),
        7 => a & (d & e),
        8 => a & ((r.b == 0) & (d & e)),
        9 => a & e,
        10 => a,
        11 => operations,
        12 => operations,
        13 => operations & e,
        14 => a & (d & e),
        _ => false,
    }
}

// What a well formed record asks for, by its code.
fn asked_by(r: Record) -> Option<Asked>
    ensures { result ≡ asked_by r }
{
    Some(match r.code {
        1 => Asked::Install {
            image: r.a == 1,
            place: r.b,
        },
        2 => Asked::Uninstall { app: r.b },
        3 => Asked::Grant {
            app: r.b,
            permission: r.c,
        },
        4 => Asked::Revoke {
            app: r.b,
            permission: r.c,
        },
        5 => Asked::GrantGroup {
            app: r.b,
            group: r.c,
        },
        6 => Asked::RevokeGroup {
            app: r.b,
            group: r.c,
        },
        7 => Asked::Start {
            component: r.b,
            caller: r.c,
        },
        8 => Asked::Stop { instance: r.c },
        9 => Asked::Read {
            provider: r.b,
            instance: r.c,
            uri: r.d,
        },
        10 => Asked::Write {
            provider: r.b,
            instance: r.c,
            uri: r.d,
            value: r.e,
        },
        11 => Asked::Lend {
            operations: r.a,
            provider: r.b,
            giver: r.c,
            uri: r.d,
            receiver: tables::Receiver::Instance(r.e),
        },
        12 => Asked::Lend {
            operations: r.a,
            provider: r.b,
            giver: r.c,
            uri: r.d,
            receiver: tables::Receiver::App(r.e),
        },
        13 => Asked::Withdraw {
            operations: r.a,
            provider: r.b,
            instance: r.c,
            uri: r.d,
        },
        14 => Asked::Ask {
            app: r.b,
            permission: r.c,
        },
        _ => return None,
    })
}

// ---- loans by value: receiver, provider and uri stay three parameters, as a struct of them makes each contract longer

/// Does a loan to a receiver on a resource carry an operation?
#[tactic(auto, unfolding(state::specs::Tables::lent_in))]
pub fn lends(
    loans: Loans,
    receiver: Receiver,
    provider: u16,
    uri: u16,
    operation: Operation,
) -> bool
    ensures { result ≡ lent_in (loans_in loans) (receiver_of receiver) provider uri (op_of operation) }
{
    loans.held().iter().any(|x| is_loan(*x, receiver, provider, uri)
        && operation.is_in(x.operations))
}

/// Is there a loan to a receiver on a resource?
pub fn has_loan(loans: Loans, receiver: Receiver, provider: u16, uri: u16) -> bool
    ensures { result ≡ any (is_loan (receiver_of receiver) provider uri) (loans_in loans) }
{
    loans
        .held()
        .iter()
        .any(|x| is_loan(*x, receiver, provider, uri))
}

/// A loan to a receiver on a resource: widened where there is one, and otherwise added. A full table takes no more.
#[tactic(auto, unfolding(crate::specs::Held::lend_in))]
pub fn lend(loans: Loans, receiver: Receiver, provider: u16, uri: u16, operations: u8) -> Loans
    ensures { result ≡ loans_table (lend_in (receiver_of receiver) provider uri operations (loans_in loans)) }
{
    if has_loan(loans, receiver, provider, uri) {
        return widen(loans, receiver, provider, uri, operations);
    }
    append(loans, loan_of(receiver, provider, uri, operations))
}

/// The loans to a receiver on a resource carry also the operations now lent.
pub fn widen(loans: Loans, receiver: Receiver, provider: u16, uri: u16, operations: u8) -> Loans
    ensures { result ≡ loans_table (map (widened (receiver_of receiver) provider uri operations) (loans_in loans)) }
{
    each(loans, |x| widened(x, receiver, provider, uri, operations))
}

/// One loan more, at the end; a full table stays as it is.
pub fn append(loans: Loans, loan: Loan) -> Loans
    ensures { result ≡ loans_table (appended loan (loans_in loans)) }
{
    let mut made = each(loans, |x| x);
    made.push(loan);
    made
}

/// The loans left when an instance stops: those to it end.
#[tactic(auto, unfolding(state::specs::Effects::reduce))]
pub fn reduce_stop(loans: Loans, instance: u16) -> Loans
    ensures { result ≡ loans_table (reduce (keeps_stop instance) (loans_in loans)) }
{
    left(loans, |x| kept_stop(x, instance))
}

/// The loans left when an app is uninstalled: those on its resources and those to it end.
#[tactic(auto, unfolding(state::specs::Effects::reduce))]
pub fn reduce_uninstall(loans: Loans, parts: Parts, app: u16) -> Loans
    ensures { result ≡ loans_table (reduce (keeps_uninstall (parts_in parts) app) (loans_in loans)) }
{
    left(loans, |x| kept_uninstall(x, parts, app))
}

/// The loans left when operations on a resource are withdrawn from every loan on it.
#[tactic(auto, unfolding(state::specs::Effects::reduce))]
pub fn reduce_withdraw(loans: Loans, provider: u16, uri: u16, operations: u8) -> Loans
    ensures { result ≡ loans_table (reduce (keeps_withdraw provider uri operations) (loans_in loans)) }
{
    left(loans, |x| kept_withdraw(x, provider, uri, operations))
}

// What a change makes of each loan, in order; the places past them are zero. Private, as `left`: it takes a closure.
fn each<F: Fn(Loan) -> Loan>(loans: Loans, change: F) -> Loans
    requires { F.IsAlwaysCallable change }
    ensures { (to : Loan → Loan) → Gives F.Fn change to → result ≡ loans_table (map to (loans_in loans)) }
{
    let mut made = Table::empty(Loan::default());
    for loan in loans.held() {
        made.push(change(*loan));
    }
    made
}

// What a change leaves of each loan, in order; one left with no operation goes, and the places past them are zero.
fn left<F: Fn(Loan) -> Loan>(loans: Loans, change: F) -> Loans
    requires { F.IsAlwaysCallable change }
    ensures { (to : Loan → Loan) → Gives F.Fn change to
        → result ≡ loans_table (keep carries_any (map to (loans_in loans))) }
{
    let mut made = Table::empty(Loan::default());
    for loan in loans.held() {
        let rest = change(*loan);
        if carries_any(rest) {
            made.push(rest);
        }
    }
    made
}

// ---- loans lent in place

/// A lent table by value.
pub fn copy_out(lent: &[Loan]) -> Lent
    ensures { result ≡ lent_from lent.now }
{
    let length = lent.len();
    let n = length.min(128);
    let mut table = no_loans();
    table[..n].copy_from_slice(&lent[..n]);
    Lent { table, length }
}

/// Writes the records of a table that lie in a range, and touches no other.
pub fn write_records(lent: &mut [Loan], table: [Loan; 128], range: Range)
    ensures { lent.new ≡ written range.from range.to table lent.old }
{
    let from = range.from;
    let end = range.to.min(128).min(lent.len());
    if from < end {
        lent[from..end].copy_from_slice(&table[from..end]);
    }
}

/// The records in which two tables differ, from the first to the last.
#[tactic(auto, unfolding(crate::specs::Lent::changed_in))]
pub fn changed(old: [Loan; 128], new: [Loan; 128]) -> Range
    ensures { result ≡ changed_in old new }
{
    Range {
        from: first_change(old, new),
        to: after_change(old, new),
    }
}

fn first_change(old: [Loan; 128], new: [Loan; 128]) -> usize
    ensures { result ≡ first_change old new }
{
    old.iter()
        .zip(new.iter())
        .position(|(x, y)| x != y)
        .unwrap_or(128)
}

fn after_change(old: [Loan; 128], new: [Loan; 128]) -> usize
    ensures { result ≡ after_change old new }
{
    for i in (0..128).rev() {
        if old[i] != new[i] {
            return i + 1;
        }
    }
    0
}

/// A table with no loan in it.
pub fn no_loans() -> [Loan; 128]
    ensures { result ≡ no_loans }
{
    [Loan::default(); 128]
}

// ---- one loan

#[tactic(auto, unfolding(state::specs::Tables::is_loan))]
fn is_loan(loan: Loan, receiver: Receiver, provider: u16, uri: u16) -> bool
    ensures { result ≡ is_loan (receiver_of receiver) provider uri loan }
{
    is_to(loan, receiver) & is_on(loan, provider, uri)
}

fn is_to(loan: Loan, receiver: Receiver) -> bool
    ensures { result ≡ is_to (receiver_of receiver) loan }
{
    (loan.kind == receiver.kind()) & (loan.receiver == receiver.number())
}

#[tactic(auto, unfolding(state::specs::Tables::is_on))]
fn is_on(loan: Loan, provider: u16, uri: u16) -> bool
    ensures { result ≡ is_on provider uri loan }
{
    (loan.provider == provider) & (loan.uri == uri)
}

#[tactic(auto, unfolding(state::specs::Effects::carries_any))]
fn carries_any(loan: Loan) -> bool
    ensures { result ≡ carries_any loan }
{
    Operation::Read.is_in(loan.operations) | Operation::Write.is_in(loan.operations)
}

fn operations_of(reads: bool, writes: bool) -> u8
    ensures { result ≡ operations_of (by_op reads writes) }
{
    u8::from(reads) + 2 * u8::from(writes)
}

#[tactic(auto, unfolding(state::specs::Effects::with_operations))]
fn with_operations(loan: Loan, reads: bool, writes: bool) -> Loan
    ensures { result ≡ with_operations (by_op reads writes) loan }
{
    Loan {
        operations: operations_of(reads, writes),
        ..loan
    }
}

fn loan_of(receiver: Receiver, provider: u16, uri: u16, operations: u8) -> Loan
    ensures { result ≡ loan_of (receiver_of receiver) provider uri operations }
{
    Loan {
        kind: receiver.kind(),
        receiver: receiver.number(),
        provider,
        uri,
        operations,
    }
}

#[tactic(auto, unfolding(state::specs::Effects::widened, state::specs::Effects::with_operations))]
fn widened(loan: Loan, receiver: Receiver, provider: u16, uri: u16, operations: u8) -> Loan
    ensures { result ≡ widened (receiver_of receiver) provider uri operations loan }
{
    let same = is_loan(loan, receiver, provider, uri);
    let reads = Operation::Read.is_in(loan.operations) | (same & Operation::Read.is_in(operations));
    let writes = Operation::Write.is_in(loan.operations)
        | (same & Operation::Write.is_in(operations));
    with_operations(loan, reads, writes)
}

// A loan with those of its operations that it is to keep.
#[tactic(auto, unfolding(state::specs::Effects::kept, state::specs::Effects::with_operations))]
fn keep_operations(loan: Loan, reads: bool, writes: bool) -> Loan
    ensures { result ≡ kept (λ x op. by_op reads writes op) loan }
{
    let carries_read = Operation::Read.is_in(loan.operations);
    let carries_write = Operation::Write.is_in(loan.operations);
    with_operations(loan, carries_read & reads, carries_write & writes)
}

#[tactic(auto, unfolding(state::specs::Effects::kept))]
fn kept_stop(loan: Loan, instance: u16) -> Loan
    ensures { result ≡ kept (keeps_stop instance) loan }
{
    let stays = !is_to(loan, Receiver::Instance(instance));
    keep_operations(loan, stays, stays)
}

#[tactic(auto, unfolding(state::specs::Effects::kept, state::specs::Effects::ends_with))]
fn kept_uninstall(loan: Loan, parts: Parts, app: u16) -> Loan
    ensures { result ≡ kept (keeps_uninstall (parts_in parts) app) loan }
{
    let owned = tables::owns(parts, app, loan.provider);
    let stays = !(owned | is_to(loan, Receiver::App(app)));
    keep_operations(loan, stays, stays)
}

#[tactic(auto, unfolding(state::specs::Effects::kept))]
fn kept_withdraw(loan: Loan, provider: u16, uri: u16, operations: u8) -> Loan
    ensures { result ≡ kept (keeps_withdraw provider uri operations) loan }
{
    let on = is_on(loan, provider, uri);
    let reads = !(on & Operation::Read.is_in(operations));
    let writes = !(on & Operation::Write.is_in(operations));
    keep_operations(loan, reads, writes)
}
