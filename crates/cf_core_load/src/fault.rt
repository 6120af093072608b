ghost use Rattle.std.specs.Prelude.{◌≡◌};
ghost use Rattle.cf_core_load.specs.Faults.{without_class};

use cf_core_node::NotLoaded;
use cf_types::ClassId;
use thiserror::Error;

/// Why a file's core gives no program.
#[derive(Debug, Drop, Error)]
pub enum LoadFault {
    /// The file defines a class; this is the first.
    #[error("classes are not built in the plain program")]
    Class(ClassId),
    /// The first construct that the plain program does not have, by its byte place.
    #[error("the construct at byte {at} is not built in the plain program")]
    NotBuilt { at: u32 },
    #[error("out of memory")]
    Memory,
}

/// The fault of a file without classes.
pub(crate) fn fault_of(fault: NotLoaded) -> LoadFault
    ensures { result ≡ without_class fault }
{
    match fault {
        NotLoaded::NotBuilt { at } => LoadFault::NotBuilt { at },
        NotLoaded::Memory => LoadFault::Memory,
    }
}
