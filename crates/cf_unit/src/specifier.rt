use crate::class::ClassDef;
use crate::enumeration::EnumDef;
use cf_base::Boxed;
use cf_syntax::TypeSpecifier;

/// A specifier of a declaration (7.1).
#[cycle(statements)]
#[derive(Drop)]
pub enum Specifier {
    /// One that defines nothing.
    Plain(TypeSpecifier),
    /// A class that is defined here (9).
    Class(Boxed<ClassDef>),
    /// An enumeration that is defined here (7.2).
    Enumeration(EnumDef),
}
