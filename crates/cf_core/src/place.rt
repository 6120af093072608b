ghost use Rattle.std.specs.Prelude.{◌≡◌};

use crate::node::Core;

impl Core {
    ghost use Rattle.cf_core.specs.NodePlace.{place};

    /// The byte place of the node's construct.
    pub fn at(&self) -> u32
        ensures { result ≡ place self.now }
    {
        match self {
            Core::Number { at, .. } => *at,
            Core::Text { at, .. } => *at,
            Core::This { at, .. } => *at,
            Core::Local { at, .. } => *at,
            Core::Static { at, .. } => *at,
            Core::Function { at, .. } => *at,
            Core::Member { at, .. } => *at,
            Core::Read { at, .. } => *at,
            Core::Address { at, .. } => *at,
            Core::Dereference { at, .. } => *at,
            Core::Decay { at, .. } => *at,
            Core::Index { at, .. } => *at,
            Core::Convert { at, .. } => *at,
            Core::Up { at, .. } => *at,
            Core::Down { at, .. } => *at,
            Core::FromVoid { at, .. } => *at,
            Core::ToMember { at, .. } => *at,
            Core::DataPointer { at, .. } => *at,
            Core::FunctionPointer { at, .. } => *at,
            Core::Through { at, .. } => *at,
            Core::Operate { at, .. } => *at,
            Core::Unary { at, .. } => *at,
            Core::Not { at, .. } => *at,
            Core::And { at, .. } => *at,
            Core::Or { at, .. } => *at,
            Core::PointerOperate { at, .. } => *at,
            Core::Conditional { at, .. } => *at,
            Core::Comma { at, .. } => *at,
            Core::Store { at, .. } => *at,
            Core::Update { at, .. } => *at,
            Core::Increment { at, .. } => *at,
            Core::Assign { at, .. } => *at,
            Core::Temporary { at, .. } => *at,
            Core::Call { at, .. } => *at,
            Core::VirtualCall { at, .. } => *at,
            Core::PointerCall { at, .. } => *at,
            Core::New { at, .. } => *at,
            Core::NewArray { at, .. } => *at,
            Core::Delete { at, .. } => *at,
            Core::DeleteArray { at, .. } => *at,
            Core::Build { at, .. } => *at,
            Core::Copy { at, .. } => *at,
            Core::Each { at, .. } => *at,
            Core::List { at, .. } => *at,
            Core::Characters { at, .. } => *at,
            Core::Bind { at, .. } => *at,
            Core::Zeros { at, .. } => *at,
            Core::Blank { at, .. } => *at,
            Core::Full { at, .. } => *at,
            Core::Block { at, .. } => *at,
            Core::Sequence { at, .. } => *at,
            Core::Declare { at, .. } => *at,
            Core::Once { at, .. } => *at,
            Core::If { at, .. } => *at,
            Core::Loop { at, .. } => *at,
            Core::Switch { at, .. } => *at,
            Core::Case { at, .. } => *at,
            Core::Default { at, .. } => *at,
            Core::Break { at, .. } => *at,
            Core::Continue { at, .. } => *at,
            Core::Return { at, .. } => *at,
            Core::Parts { at, .. } => *at,
        }
    }
}
