use cc_whole::CUnit;

/// What a file is translated to.
#[derive(Drop)]
pub struct Compiled {
    pub unit: CUnit,
    /// The text of the unit.
    pub text: Vec<u8>,
    /// The greatest bound of the frames of the file's functions, in bytes.
    pub frame: u64,
}
