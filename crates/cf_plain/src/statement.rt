use crate::action::Action;
use cf_base::Items;
use cf_core::BuiltPart;

/// A base or data member with the statements that build it (12.6.2).
#[cycle(plain)]
#[derive(Drop)]
pub struct PlainPart {
    pub part: BuiltPart,
    pub statements: Items<Plain>,
}

/// A statement of one effect.
#[cycle(plain)]
#[derive(Drop)]
pub enum Plain {
    /// What the action gives is not kept.
    Act {
        action: Action,
    },
    /// What the action gives is kept in a register.
    Set {
        register: u32,
        action: Action,
    },
    /// By the number in a register: the second statements where it is 0.
    If {
        register: u32,
        yes: Items<Plain>,
        no: Items<Plain>,
    },
    /// Turns without end; `next` is done before each further turn. Each turn spends a tick.
    Loop {
        body: Items<Plain>,
        next: Items<Plain>,
    },
    /// By the number in a register. The body holds the labels among its statements.
    Switch {
        register: u32,
        body: Items<Plain>,
    },
    Case {
        value: i64,
    },
    Default,
    /// Leaves the innermost loop or switch.
    Break,
    Continue,
    /// With what stands in the register.
    Return {
        register: Option<u32>,
    },
    /// A constructor's bases and data members in order of building; virtual bases in a whole object alone (12.6.2).
    Parts {
        parts: Items<PlainPart>,
    },
}
