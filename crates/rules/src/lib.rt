//! What the rules speak of: the rows of the tables, the answers, and their numbers.
//! Document 01, "Numbers that come back".
#![tactic(auto)]

ghost use Rattle.std.specs.Prelude.{◌≡◌};
ghost use Rattle.rules.specs.Answer.{number_of, ground_number};
ghost use Rattle.rules.specs.Permissions.{is_held};

use manifest::{Component, Define};

/// A permission defined by an installed app, with the app's number.
#[derive(Clone, Copy, PartialEq, Eq, Default)]
pub struct Definition {
    pub app: u16,
    pub define: Define,
}

/// An installed component, with its app's number.
#[derive(Clone, Copy, PartialEq, Eq, Default)]
pub struct Part {
    pub app: u16,
    pub component: Component,
}

/// A running instance, and the number of its component.
#[derive(Clone, Copy, PartialEq, Eq, Default)]
pub struct Instance {
    pub number: u8,
    pub component: u16,
}

/// A loan on a resource: kind 1 to an instance, kind 2 to an app. Operations: 1 read, 2 write, 3 both. Kind and
/// operations are bytes and no enums, since the validity of a lent table (`device::valid`) is asked of every byte.
#[derive(Clone, Copy, PartialEq, Eq, Default)]
pub struct Loan {
    pub kind: u8,
    pub receiver: u16,
    pub provider: u16,
    pub uri: u16,
    pub operations: u8,
}

/// A definition in force; definer 0 is the platform. The level is a byte and no enum, as in a manifest's defines.
#[derive(Clone, Copy, PartialEq, Eq)]
pub struct Known {
    pub definer: u16,
    pub signer: u32,
    pub level: u8,
    pub group: u8,
}

/// What a done read or write rests on. `Nothing`, for every other action, is the ground that document 01 numbers 0.
#[derive(Clone, Copy, PartialEq, Eq)]
pub enum Ground {
    Nothing = 0,
    Owner = 1,
    Permission = 2,
    LoanToInstance = 3,
    LoanToApp = 4,
}

/// Why an action is refused, in the order and with the numbers of document 01's table.
#[derive(Clone, Copy, PartialEq, Eq)]
pub enum Reason {
    StateNotValid = 1,
    MalformedAction = 2,
    MalformedManifest = 3,
    AlreadyThere = 4,
    NoSuchApp = 5,
    NoSuchComponent = 6,
    NoSuchInstance = 7,
    NoSuchResource = 8,
    Undefined = 9,
    CannotBeGranted = 10,
    NotPermitted = 11,
    NothingToTakeBack = 12,
    InUse = 13,
    PartOfTheImage = 14,
    NoRoom = 15,
}

/// What a done action gives back.
#[derive(Clone, Copy, PartialEq, Eq)]
pub struct Done {
    pub ground: Ground,
    pub value: u32,
}

/// What comes back for an action.
pub type Answer = Result<Done, Reason>;

/// Why an app holds a defined permission, or does not.
#[derive(Clone, Copy, PartialEq, Eq)]
pub enum Hold {
    Normal,
    Granted,
    ByGroup,
    BySigner,
    ByImage,
    NotListed,
    NotGranted,
    SignerDiffers,
}

/// Document 01's number of a refusal, which is its discriminant.
impl From<Reason> for u32 {
    ghost from_gives = { λ reason n. n ≡ number_of reason };

    fn from(reason: Reason) -> u32 {
        reason as u32
    }
}

/// Document 01's number of a ground, which is its discriminant.
impl From<Ground> for u32 {
    ghost from_gives = { λ ground n. n ≡ ground_number ground };

    fn from(ground: Ground) -> u32 {
        ground as u32
    }
}

/// The number of a refusal, by name.
pub fn number(reason: Reason) -> u32
    ensures { result ≡ number_of reason }
{
    u32::from(reason)
}

/// The number of a ground, by name.
pub fn ground_number(ground: Ground) -> u32
    ensures { result ≡ ground_number ground }
{
    u32::from(ground)
}

/// Is the permission held? As `Hold::is_held` says it.
pub fn held(hold: Hold) -> bool
    ensures { result ≡ is_held hold }
{
    hold.is_held()
}

impl Hold {
    /// Is the permission held?
    pub fn is_held(self) -> bool
        ensures { result ≡ is_held self }
    {
        matches!(
            self,
            Hold::Normal | Hold::Granted | Hold::ByGroup | Hold::BySigner | Hold::ByImage
        )
    }
}
