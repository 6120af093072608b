use cc_whole::CType;

/// What stands around a statement, but for the names in scope.
#[derive(Clone, Copy, Debug)]
pub struct Around {
    /// Whether the function is a helper, whose name begins with `__h`.
    pub in_helper: bool,
    /// Its result type.
    pub result: Option<CType>,
    pub in_loop: bool,
    /// Whether a loop or a `switch` is around it.
    pub may_break: bool,
}
