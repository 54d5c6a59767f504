//! The least of the breaches so far.

ghost use Rattle.std.specs.Prelude.{◌≡◌, ◌⊎◌, None, Some, MatchResult};
ghost use Rattle.type_rules.specs.declared.error.ModeError.TheVariants.{NoMemory};
ghost use Rattle.type_rules.specs.Breaches as spec;
ghost use Rattle.type_rules.specs.Breaches.{lesser, least_of, refuse};
ghost use Rattle.type_rules.specs.working.Seen.{seen_breach};

use crate::error::ModeError;
use math_terms::Name;
use std::alloc::Global;
use std::marker::Model;

/// A breach, with its place and with a name of the text.
#[derive(Clone, Copy)]
pub enum Breach<'c> {
    OfType { at: u32 },
    Mode { at: u32 },
    Repeated { at: u32 },
    Changing { at: u32, name: &'c Name },
    Order { at: u32 },
    Stream { at: u32 },
    MainHeading { at: u32 },
    Missing { at: u32, name: &'c Name },
}

impl Breach<'_> {
    fn place(&self) -> u32
        ensures { result ≡ spec.place (seen_breach self.now) }
    {
        match self {
            Breach::OfType { at } => *at,
            Breach::Mode { at } => *at,
            Breach::Repeated { at } => *at,
            Breach::Changing { at, .. } => *at,
            Breach::Order { at } => *at,
            Breach::Stream { at } => *at,
            Breach::MainHeading { at } => *at,
            Breach::Missing { at, .. } => *at,
        }
    }

    // The number of its kind.
    fn rank(&self) -> u8
        ensures { result ≡ spec.rank (seen_breach self.now) }
    {
        match self {
            Breach::OfType { .. } => 0,
            Breach::Mode { .. } => 1,
            Breach::Repeated { .. } => 2,
            Breach::Changing { .. } => 3,
            Breach::Order { .. } => 4,
            Breach::Stream { .. } => 5,
            Breach::MainHeading { .. } => 6,
            Breach::Missing { .. } => 7,
        }
    }

    fn is_before(&self, other: &Breach<'_>) -> bool
        ensures { result ≡ spec.is_before (seen_breach self.now) (seen_breach other.now) }
    {
        self.place() < other.place()
            || (self.place() == other.place() && self.rank() < other.rank())
    }

    fn as_error(&self, alloc: Global) -> ModeError
        ensures { (result ≡ NoMemory) ⊎ (result ≡ seen_breach self.now) }
    {
        match self {
            Breach::OfType { at } => ModeError::OfType { at: *at },
            Breach::Mode { at } => ModeError::Mode { at: *at },
            Breach::Repeated { at } => ModeError::Repeated { at: *at },
            Breach::Changing { at, name } => match name.copy(alloc) {
                Ok(name) => ModeError::Changing { at: *at, name },
                Err(_) => ModeError::NoMemory,
            },
            Breach::Order { at } => ModeError::Order { at: *at },
            Breach::Stream { at } => ModeError::Stream { at: *at },
            Breach::MainHeading { at } => ModeError::MainHeading { at: *at },
            Breach::Missing { at, name } => match name.copy(alloc) {
                Ok(name) => ModeError::Missing { at: *at, name },
                Err(_) => ModeError::NoMemory,
            },
        }
    }
}

/// The least of the breaches that were noted, if any was: the one at the smallest place, there the first by its kind, and of
/// several of one kind the one that was noted first.
#[derive(Drop)]
pub struct Least<'c> {
    breach: Option<Breach<'c>>,
}

impl<'c> Model for Least<'c> {
    ghost use Rattle.std.specs.Prelude.{Option};
    ghost use Rattle.std.specs.Option.{option_map};
    ghost use Rattle.type_rules.specs.declared.error.ModeError.{ModeError};
    ghost use Rattle.type_rules.specs.working.Seen.{seen_breach};

    ghost Value = { Option ModeError };

    ghost view = { λ l. option_map seen_breach l.breach };
}

impl<'c> Least<'c> {
    /// No breach.
    pub fn new() -> Least<'c>
        ensures { result ≡ None }
    {
        Least { breach: None }
    }

    /// Notes a further breach.
    pub fn note(&mut self, breach: Breach<'c>)
        ensures { self.new ≡ lesser self.old (seen_breach breach.entry) }
    {
        let is_least = match &self.breach {
            Some(least) => breach.is_before(least),
            None => true,
        };
        if is_least {
            self.breach = Some(breach);
        }
    }

    /// Notes a breach where a rule is broken.
    pub fn note_if(&mut self, is_broken: bool, breach: Breach<'c>)
        ensures { self.new ≡ least_of self.old (refuse is_broken (seen_breach breach.entry)) }
    {
        if is_broken {
            self.note(breach);
        }
    }

    /// The least as an error.
    pub fn answer(&self, alloc: Global) -> Result<(), ModeError>
        ensures { MatchResult result (λ _. self.now ≡ None) (λ e. (e ≡ NoMemory) ⊎ (self.now ≡ Some e)) }
    {
        match &self.breach {
            Some(breach) => Err(breach.as_error(alloc)),
            None => Ok(()),
        }
    }
}
