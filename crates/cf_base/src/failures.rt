ghost use Rattle.std.specs.Prelude.{◌≡◌, ◌≢◌, [], ◌∷◌, ◌++◌, OnOk, OnErr};
ghost use Rattle.cf_base.specs.Disk.{Rises};
ghost use Rattle.cf_base.specs.Failures.{times};

use crate::memory::Memory;
use std::alloc::Global;
use std::marker::Model;

/// The names of the calls that failed, one for each failure, which contracts see as the list of their bytes.
#[derive(Debug, Drop)]
pub struct Failures {
    alloc: Global,
    names: Vec<String>,
}

impl Model for Failures {
    ghost use Rattle.std.specs.Prelude.{List, ℕ, map, string_bytes};

    ghost Value = { List (List ℕ) };

    ghost view = { λ f. map string_bytes f.names.items };
}

impl Failures {
    /// No call has failed.
    pub fn new(alloc: Global) -> Failures
        ensures { result ≡ [] }
    {
        Failures {
            alloc,
            names: Vec::new(alloc),
        }
    }

    /// Notes that a call on this name failed. After an error nothing is noted.
    pub fn note(&mut self, name: &str) -> Result<(), Memory>
        ensures ok { OnOk result (self.new ≡ self.old ++ name.now ∷ []) }
        ensures rises { OnOk result (Rises name.now (times self.old) (times self.new)) }
        ensures err { OnErr result (self.new ≡ self.old) }
    {
        let name = String::from_str(self.alloc, name)?;
        self.names.push(name)?;
        Ok(())
    }
}
