use cf_core_drive::Fault;
use cf_core_load::LoadFault;
use thiserror::Error;

/// Why a file has no run that came to an end.
#[derive(Debug, Drop, Error)]
pub enum UnitFault {
    /// The file's core gives no program; nothing was taken or put.
    #[error("{0}")]
    Load(LoadFault),
    /// The run was given up behind what was taken and put.
    #[error("{0}")]
    Run(Fault),
}
