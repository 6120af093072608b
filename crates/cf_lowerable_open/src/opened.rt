//! What is told of one local.

ghost use Rattle.std.specs.Prelude.{◌≡◌, ◌==◌, [], Some, None, false, IfOk, OnOk};
ghost use Rattle.cf_lower_kept.specs.Opened as spec;
ghost use Rattle.cf_lowerable_open.specs.Lists as walk;
ghost use Rattle.cf_lowerable_open.specs.Told.{told};

use crate::located::{Last, Place, copied, counts_at, forget, shared, tell, unless_in};
use cf_base::{Items, Memory};
use std::alloc::Global;

/// A local that may have an object.
#[derive(Debug, Drop)]
pub struct Opened {
    /// Its number in its function.
    pub local: u32,
    /// The register with its place, while it has no value.
    pub begun: Option<u32>,
    /// Whether it has a value.
    pub has_value: bool,
    /// Whether its object stands, if that is told.
    pub stands: Option<bool>,
    /// The register of its flag, if it has one.
    pub flag: Option<u32>,
    /// Whether the flag holds 1 where the object stands and 0 where it does not.
    pub is_told: bool,
    /// What is told of the places in its object that registers have.
    pub places: Vec<Place>,
    /// The number that a register was set to last.
    pub last: Option<Last>,
}

/// Whether this register is given.
fn is_register(given: Option<u32>, register: u32) -> bool
    ensures { result ≡ spec.is_register given register }
{
    match given {
        None => false,
        Some(other) => other == register,
    }
}

/// Whether an object is told not to stand.
fn is_over(stands: Option<bool>) -> bool
    ensures { result ≡ spec.is_over stands }
{
    match stands {
        None => false,
        Some(stands) => !stands,
    }
}

/// Whether a flag tells by this number that an object stands, or that it does not.
fn tells(stands: Option<bool>, value: i64) -> bool
    ensures { result ≡ spec.tells stands value }
{
    match stands {
        None => false,
        Some(true) => value <= 1 && 1 <= value,
        Some(false) => value <= 0 && 0 <= value,
    }
}

/// The register that is given on both ways.
pub(crate) fn same_begun(left: Option<u32>, right: Option<u32>) -> Option<u32>
    ensures { result ≡ spec.same_begun left right }
{
    match left {
        None => None,
        Some(register) => {
            if is_register(right, register) {
                Some(register)
            } else {
                None
            }
        }
    }
}

/// Whether an object stands, where that is told on both ways.
fn same_stand(left: Option<bool>, right: Option<bool>) -> Option<bool>
    ensures { result ≡ spec.same_stand left right }
{
    match (left, right) {
        (Some(true), Some(true)) => Some(true),
        (Some(false), Some(false)) => Some(false),
        _ => None,
    }
}

/// Whether the same is told of two objects.
fn as_open(left: Option<bool>, right: Option<bool>) -> bool
    ensures { result ≡ spec.as_open left right }
{
    match (left, right) {
        (Some(true), Some(true)) => true,
        (Some(false), Some(false)) => true,
        (None, None) => true,
        _ => false,
    }
}

impl Opened {
    /// A local that has an object.
    pub fn new(alloc: Global, local: u32, begun: Option<u32>, has_value: bool) -> Opened
        ensures { told result ≡ spec.open_one local begun has_value }
    {
        Opened {
            local,
            begun,
            has_value,
            stands: Some(true),
            flag: None,
            is_told: false,
            places: Vec::new(alloc),
            last: None,
        }
    }

    /// A local that has no object, with a flag.
    pub fn awaited(alloc: Global, local: u32, flag: u32) -> Opened
        ensures { told result ≡ record { local = local; begun = None; has_value = false; stands = Some false; flag = Some flag; is_told = false; places = spec.no_places; last = None } }
    {
        Opened {
            local,
            begun: None,
            has_value: false,
            stands: Some(false),
            flag: Some(flag),
            is_told: false,
            places: Vec::new(alloc),
            last: None,
        }
    }

    /// The same in a value of its own.
    pub fn copied(&self, alloc: Global) -> Result<Opened, Memory>
        ensures { IfOk result (λ made. told made ≡ told self.now) }
    {
        Ok(Opened {
            local: self.local,
            begun: self.begun,
            has_value: self.has_value,
            stands: self.stands,
            flag: self.flag,
            is_told: self.is_told,
            places: copied(alloc, self.places.as_slice())?,
            last: self.last,
        })
    }

    /// Whether it is this local.
    pub fn is(&self, local: u32) -> bool
        ensures { result ≡ spec.is_local local (told self.now) }
    {
        self.local == local
    }

    /// Whether it is this local, whose object may stand.
    pub fn is_open(&self, local: u32) -> bool
        ensures { result ≡ spec.is_open_one local (told self.now) }
    {
        self.local == local && !is_over(self.stands)
    }

    /// Whether it is this local, which may get its first value in this register.
    pub fn may_begin(&self, local: u32, register: u32) -> bool
        ensures { result ≡ walk.may_begin_one local register (told self.now) }
    {
        self.local == local && is_register(self.begun, register)
    }

    /// Whether it is this local, which has its value.
    pub fn has_its_value(&self, local: u32) -> bool
        ensures { result ≡ walk.has_value_one local (told self.now) }
    {
        self.is_open(local) && self.has_value
    }

    /// Whether only the flag tells that it stands, in this register.
    pub fn goes_by(&self, register: u32) -> bool
        ensures { result ≡ spec.goes_by register (told self.now) }
    {
        is_register(self.flag, register) && (self.is_told && self.stands.is_none())
    }

    /// What is told of the place that a register has.
    pub fn counts(&self, register: u32) -> &[u32]
        ensures { result.now ≡ (told self.now).places register }
    {
        counts_at(self.places.as_slice(), register)
    }

    /// The register gets another value, of which nothing is told.
    pub fn overwrite(&mut self, register: u32)
        ensures { told self.new ≡ spec.overwritten register [] (told self.old) }
    {
        if is_register(self.begun, register) {
            self.begun = None;
        }
        if is_register(self.flag, register) {
            self.is_told = false;
        }
        forget(register, &mut self.places);
        self.last = unless_in(self.last, register);
    }

    /// The register gets a place in the object, of which this is told.
    pub fn place(&mut self, register: u32, counts: Items<u32>) -> Result<(), Memory>
        ensures { OnOk result (told self.new ≡ spec.overwritten register counts (told self.old)) }
    {
        if is_register(self.begun, register) {
            self.begun = None;
        }
        if is_register(self.flag, register) {
            self.is_told = false;
        }
        tell(register, counts, &mut self.places)?;
        self.last = unless_in(self.last, register);
        Ok(())
    }

    /// What is still so where statements run any number of times.
    pub fn settle(&mut self)
        ensures { told self.new ≡ spec.settled (told self.old) }
    {
        self.begun = None;
        self.has_value = false;
        self.flag = None;
        self.is_told = false;
        self.places.truncate(0);
        self.last = None;
    }

    /// This local has a value from now on.
    pub fn give_value(&mut self, local: u32)
        ensures { told self.new ≡ spec.valued local (told self.old) }
    {
        if self.local == local {
            self.has_value = true;
        }
    }

    /// Its object of a type is there, in this register, and has no value yet; of its own place this is told.
    pub fn begin(&mut self, register: Option<u32>, counts: Items<u32>) -> Result<(), Memory>
        ensures { OnOk result (told self.new ≡ walk.begun_with register counts (told self.old)) }
    {
        self.begun = register;
        self.has_value = false;
        self.stands = Some(true);
        self.is_told = false;
        self.places.truncate(0);
        match register {
            None => Ok(()),
            Some(register) => tell(register, counts, &mut self.places),
        }
    }

    /// The flag holds this number from now on.
    pub fn tell_flag(&mut self, register: u32, value: i64)
        ensures { told self.new ≡ spec.told_by register value (told self.old) }
    {
        if is_register(self.flag, register) && tells(self.stands, value) {
            self.is_told = true;
        }
    }

    /// The register was set to this number.
    pub fn count(&mut self, register: u32, value: i64)
        ensures { told self.new ≡ spec.counted register value (told self.old) }
    {
        self.last = Some(Last { register, value });
    }

    /// Where a register holds a number that is not 0.
    pub fn stand(&mut self, register: u32)
        ensures { told self.new ≡ spec.stands_by register (told self.old) }
    {
        if self.goes_by(register) {
            self.stands = Some(true);
            self.flag = None;
            self.is_told = false;
        }
    }

    /// What is so on both of two ways.
    pub fn both(&self, alloc: Global, other: &Opened) -> Result<Opened, Memory>
        ensures { IfOk result (λ made. told made ≡ spec.both_one (told self.now) (told other.now)) }
    {
        Ok(Opened {
            local: self.local,
            begun: same_begun(self.begun, other.begun),
            has_value: self.has_value && other.has_value,
            stands: same_stand(self.stands, other.stands),
            flag: same_begun(self.flag, other.flag),
            is_told: self.is_told && other.is_told,
            places: shared(alloc, self.places.as_slice(), other.places.as_slice())?,
            last: None,
        })
    }

    /// What is so of it behind two ways, of which the other tells nothing of it.
    pub fn one_way(&self, alloc: Global) -> Opened
        ensures { told result ≡ spec.one_way (told self.now) }
    {
        Opened {
            local: self.local,
            begun: None,
            has_value: false,
            stands: same_stand(self.stands, Some(false)),
            flag: None,
            is_told: false,
            places: Vec::new(alloc),
            last: None,
        }
    }

    /// Whether it is the same local, of which the same is told.
    pub fn is_as_open(&self, other: &Opened) -> bool
        ensures { result ≡ walk.alike (told self.now) (told other.now) }
    {
        self.local == other.local && as_open(self.stands, other.stands)
    }
}
