use cf_base::Name;
use cf_types::TyId;

/// Where an object is.
#[derive(Debug, Drop)]
pub enum Home {
    /// The parameter or local of this number.
    Local(u32),
    /// The static object of this link name.
    Static(Name),
}

/// A declared object or reference.
#[derive(Debug, Drop)]
pub struct Object {
    pub ty: TyId,
    pub home: Home,
    /// Its value, where it is a const integer that a constant expression initialises (5.19).
    pub number: Option<i64>,
    /// The byte place of its first declaration.
    pub at: u32,
    pub is_defined: bool,
    /// Whether its name is local to the file (3.3).
    pub is_internal: bool,
    /// Whether some declaration said `extern`.
    pub is_extern: bool,
}
