ghost use Rattle.std.specs.Prelude.{◌≡◌, ◌<◌, ◌^◌, nat_le, [], length, Some, option_map, Option, ◌≤◌, ◌+◌, ◌-◌};
ghost use Rattle.cf_core.specs.Access.{place_type};
ghost use Rattle.cf_core.specs.Core as cores;
ghost use Rattle.cf_core.specs.FromTypes.{Tables};
ghost use Rattle.cf_run_tree.specs.Tree.{core_of};
ghost use Rattle.cf_run_tree.specs.declared.program.Program.{Program};
ghost use Rattle.cf_core_place.specs.Routes.{goal_place, row_place};
ghost use Rattle.cf_core_objects.specs.Site.{HasElements};
ghost use Rattle.cf_core_objects.specs.Store.{state_of};
ghost use Rattle.cf_core_run.specs.Going.{Comes, from_value, valued, initialised, cores as row, listing as listed, listing_with, putting_bytes, writing, zeroing};
ghost use Rattle.cf_core_run.specs.Nearer.{weight, weights, whole_array, so_many, elements_left, marks_left, onward};

use crate::mark::{Doing, Listing, Mark, ValueMark};
use crate::state::{Machine, Step};
use cf_base::{Boxed, Kind};
use cf_core_objects::{Array, Stop, Value, character_kind, elements, fill_zeros, write_bytes};
use cf_core_place::{Goal, Row};
use cf_run_tree::Node;

/// Whether so many are at most this.
fn fits(given: usize, count: u32) -> bool
    ensures { result ≡ nat_le given count }
{
    given <= count as usize
}

impl<'a> Machine<'a> {
    /// A list of the elements of an array begins (8.4.1).
    pub fn begin_list(
        &mut self,
        all: &'a [Node],
        filler: &'a Boxed<Node>,
        into: Option<Goal>,
    ) -> Result<Step<'a>, Stop>
        ensures comes { (p : Program) → Comes p (λ T o. from_value T p self.old (valued T p self.old.fuel (cores.list (row T p all.now) (core_of T p filler.now)) (option_map goal_place into)) o) result self.new }
        ensures ticks { self.new.ticks ≡ self.old.ticks }
        ensures within { (p : Program) → onward p result self.new ≤ 2 + whole_array (3 + weight filler.now) + weights all.now + marks_left self.old.stack.items }
    {
        match into {
            None => Err(Stop::Malformed),
            Some(goal) => self.begin_array(all, filler, goal),
        }
    }

    /// The list initialises an array.
    fn begin_array(
        &mut self,
        all: &'a [Node],
        filler: &'a Boxed<Node>,
        goal: Goal,
    ) -> Result<Step<'a>, Stop>
        ensures comes { (p : Program) → Comes p (λ T o. from_value T p self.old (valued T p self.old.fuel (cores.list (row T p all.now) (core_of T p filler.now)) (Some (goal_place goal))) o) result self.new }
        ensures ticks { self.new.ticks ≡ self.old.ticks }
        ensures within { (p : Program) → onward p result self.new ≤ 2 + whole_array (3 + weight filler.now) + weights all.now + marks_left self.old.stack.items }
    {
        match elements(&self.objects, goal) {
            Err(stop) => Err(stop),
            Ok(array) => self.begin_elements(all, filler, array),
        }
    }

    /// The list initialises an array of so many elements.
    fn begin_elements(
        &mut self,
        all: &'a [Node],
        filler: &'a Boxed<Node>,
        array: Array,
    ) -> Result<Step<'a>, Stop>
        requires { (T : Tables) → HasElements (place_type [] (state_of T self.old.entered self.old.objects) (row_place array.row)) array.count }
        ensures comes { (p : Program) → Comes p (λ T o. from_value T p self.old (valued T p self.old.fuel (cores.list (row T p all.now) (core_of T p filler.now)) (Some (row_place array.row))) o) result self.new }
        ensures ticks { self.new.ticks ≡ self.old.ticks }
        ensures within { (p : Program) → onward p result self.new ≤ 2 + whole_array (3 + weight filler.now) + weights all.now + marks_left self.old.stack.items }
    {
        if fits(all.len(), array.count) {
            self.doing = Doing::Lists(Listing {
                array: array.row,
                index: 0,
                count: array.count,
                rest: all,
                filler,
            });
            Ok(Step::On)
        } else {
            Err(Stop::Malformed)
        }
    }

    /// The next element of an array, or the end of its list.
    pub fn next_element(&mut self, listing: Listing<'a>) -> Result<Step<'a>, Stop>
        ensures comes { (p : Program) → Comes p (λ T o. from_value T p self.old (listed T p self.old.fuel listing.entry) o) result self.new }
        ensures ticks { self.new.ticks ≡ self.old.ticks }
        ensures within { (p : Program) → onward p result self.new ≤ elements_left listing.entry + marks_left self.old.stack.items }
    {
        if listing.index >= listing.count {
            self.doing = Doing::Gives(Value::Built);
            return Ok(Step::On);
        }
        match listing.rest.split_first() {
            None => self.initialise_element(listing.filler.get(), listing),
            Some((first, rest)) => {
                let others = Listing { rest, ..listing };
                self.initialise_element(first, others)
            }
        }
    }

    /// The next element is initialised so, and then the others.
    fn initialise_element(&mut self, e: &'a Node, others: Listing<'a>) -> Result<Step<'a>, Stop>
        requires { others.index < others.count }
        ensures comes { (p : Program) → Comes p (λ T o. from_value T p self.old (listing_with T p self.old.fuel others.entry e.now) o) result self.new }
        ensures ticks { self.new.ticks ≡ self.old.ticks }
        ensures within { (p : Program) → onward p result self.new ≤ 4 + weight e.now + so_many (others.entry.count - (others.entry.index + 1)) others.entry + marks_left self.old.stack.items }
    {
        let goal = others.array.element(others.index);
        let others = Listing {
            index: others.index + 1,
            ..others
        };
        self.open_element(e, goal, others)
    }

    /// The initialiser of this element.
    fn open_element(
        &mut self,
        e: &'a Node,
        goal: Goal,
        others: Listing<'a>,
    ) -> Result<Step<'a>, Stop>
        ensures comes { (p : Program) → Comes p (λ T o. from_value T p self.old (initialised T p self.old.fuel (core_of T p e.now) (goal_place goal) (listed T p self.old.fuel others.entry)) o) result self.new }
        ensures ticks { self.new.ticks ≡ self.old.ticks }
        ensures within { (p : Program) → onward p result self.new ≤ 3 + weight e.now + elements_left others.entry + marks_left self.old.stack.items }
    {
        self.open_part(goal, ValueMark::Element(others))?;
        self.doing = Doing::Evaluate(e, Some(goal));
        Ok(Step::On)
    }

    /// An element has its value: the others come.
    pub fn element(&mut self, others: Listing<'a>) -> Result<Step<'a>, Stop>
        ensures comes { (p : Program) → Comes p (λ T o. from_value T p self.old (listed T p self.old.fuel others.entry) o) result self.new }
        ensures ticks { self.new.ticks ≡ self.old.ticks }
        ensures within { (p : Program) → onward p result self.new ≤ 1 + elements_left others.entry + marks_left self.old.stack.items }
    {
        self.doing = Doing::Lists(others);
        Ok(Step::On)
    }

    /// An array of characters is initialised by these bytes (8.4.2).
    pub fn characters(&mut self, bytes: &'a [u8], into: Option<Goal>) -> Result<Step<'a>, Stop>
        ensures comes { (p : Program) → Comes p (λ T o. from_value T p self.old (valued T p self.old.fuel (cores.string bytes.now) (option_map goal_place into)) o) result self.new }
        ensures ticks { self.new.ticks ≡ self.old.ticks }
        ensures within { (p : Program) → onward p result self.new ≤ 1 + marks_left self.old.stack.items }
    {
        match into {
            None => Err(Stop::Malformed),
            Some(goal) => self.string(bytes, goal),
        }
    }

    /// The array of characters that these bytes initialise.
    fn string(&mut self, bytes: &'a [u8], goal: Goal) -> Result<Step<'a>, Stop>
        ensures comes { (p : Program) → Comes p (λ T o. from_value T p self.old (valued T p self.old.fuel (cores.string bytes.now) (Some (goal_place goal))) o) result self.new }
        ensures ticks { self.new.ticks ≡ self.old.ticks }
        ensures within { (p : Program) → onward p result self.new ≤ 1 + marks_left self.old.stack.items }
    {
        match elements(&self.objects, goal) {
            Err(stop) => Err(stop),
            Ok(array) => self.string_of(bytes, array),
        }
    }

    /// The array of characters has so many elements.
    fn string_of(&mut self, bytes: &'a [u8], array: Array) -> Result<Step<'a>, Stop>
        requires { (T : Tables) → HasElements (place_type [] (state_of T self.old.entered self.old.objects) (row_place array.row)) array.count }
        ensures comes { (p : Program) → Comes p (λ T o. from_value T p self.old (valued T p self.old.fuel (cores.string bytes.now) (Some (row_place array.row))) o) result self.new }
        ensures ticks { self.new.ticks ≡ self.old.ticks }
        ensures within { (p : Program) → onward p result self.new ≤ 1 + marks_left self.old.stack.items }
    {
        if fits(bytes.len(), array.count) {
            let kind = character_kind(&self.objects, array.row);
            self.write(bytes, kind, array.row)
        } else {
            Err(Stop::Malformed)
        }
    }

    /// Zeros come into an array of characters of this kind, and then the bytes of a string.
    fn write(&mut self, bytes: &'a [u8], kind: Kind, row: Row) -> Result<Step<'a>, Stop>
        requires { length bytes.now < 2 ^ 32 }
        ensures comes { (p : Program) → Comes p (λ T o. from_value T p self.old (writing T p kind (row_place row) bytes.now) o) result self.new }
        ensures ticks { self.new.ticks ≡ self.old.ticks }
        ensures within { (p : Program) → onward p result self.new ≤ 1 + marks_left self.old.stack.items }
    {
        match fill_zeros(&mut self.objects, row.place()) {
            Err(stop) => Err(stop),
            Ok(()) => self.put_bytes(bytes, kind, row),
        }
    }

    /// The bytes of a string come into an array of zeros, as characters of this kind.
    fn put_bytes(&mut self, bytes: &'a [u8], kind: Kind, row: Row) -> Result<Step<'a>, Stop>
        requires { length bytes.now < 2 ^ 32 }
        ensures comes { (p : Program) → Comes p (λ T o. from_value T p self.old (putting_bytes T p kind (row_place row) bytes.now) o) result self.new }
        ensures ticks { self.new.ticks ≡ self.old.ticks }
        ensures within { (p : Program) → onward p result self.new ≤ 1 + marks_left self.old.stack.items }
    {
        match write_bytes(&mut self.objects, kind, row, bytes) {
            Err(stop) => Err(stop),
            Ok(()) => {
                self.doing = Doing::Gives(Value::Built);
                Ok(Step::On)
            }
        }
    }

    /// Every scalar is 0 or null.
    pub fn zeros(&mut self, into: Option<Goal>) -> Result<Step<'a>, Stop>
        ensures comes { (p : Program) → Comes p (λ T o. from_value T p self.old (valued T p self.old.fuel cores.zeros (option_map goal_place into)) o) result self.new }
        ensures ticks { self.new.ticks ≡ self.old.ticks }
        ensures within { (p : Program) → onward p result self.new ≤ 1 + marks_left self.old.stack.items }
    {
        match into {
            None => Err(Stop::Malformed),
            Some(goal) => self.zeros_at(goal),
        }
    }

    /// Every scalar of this goal is 0 or null.
    fn zeros_at(&mut self, goal: Goal) -> Result<Step<'a>, Stop>
        ensures comes { (p : Program) → Comes p (λ T o. from_value T p self.old (zeroing T p (goal_place goal)) o) result self.new }
        ensures ticks { self.new.ticks ≡ self.old.ticks }
        ensures within { (p : Program) → onward p result self.new ≤ 1 + marks_left self.old.stack.items }
    {
        match fill_zeros(&mut self.objects, goal.place()) {
            Err(stop) => Err(stop),
            Ok(()) => {
                self.doing = Doing::Gives(Value::Built);
                Ok(Step::On)
            }
        }
    }
}
