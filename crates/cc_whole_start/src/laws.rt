ghost use Rattle.std.specs.Prelude.{◌≤◌, List};
ghost use Rattle.cc_whole.specs.Plain.{Item, variables_of};
ghost use Rattle.cc_whole_link.specs.Static.{static_bytes};
ghost use Rattle.cc_whole_mean.specs.Start.{first_state};
ghost use Rattle.cc_whole_start.specs.Room.{bytes_of_all};

/// The law that the variables of a program take no more bytes, where it starts, than the limit Static counts. It does nothing.
pub fn variables_take_what_the_limit_counts()
    ensures { (items : List Item) → bytes_of_all (first_state items).memory ≤ static_bytes (variables_of items) }
{}
