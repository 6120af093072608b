//! What is asked of each node of a file.

ghost use Rattle.std.specs.Prelude.{◌≡◌, [], false};
ghost use Rattle.std.specs.List.{list_all};
ghost use Rattle.cf_base.specs.Integers as integers;
ghost use Rattle.cf_base.specs.declared.kind.Kind.TheVariants.{Int, UInt};
ghost use Rattle.cf_core.specs.FromTypes.{Tables};
ghost use Rattle.cf_core.specs.FromUnit.{tables_of};
ghost use Rattle.cf_core.specs.View.{change_of};
ghost use Rattle.cf_lower_place.specs.Leaf as leaf;
ghost use Rattle.cf_lower_program.specs.Labels as labels;
ghost use Rattle.cf_lower_program.specs.Starts as starts;
ghost use Rattle.cf_sequence_lowered.specs.Labels as asked_labels;
ghost use Rattle.cf_sequence_lowered.specs.Nodes.{core_labels};
ghost use Rattle.cf_sequence_lowered.specs.Operators as asked_operators;
ghost use Rattle.cf_sequence_lowered.specs.Texts as asked_texts;
ghost use Rattle.cf_sequence_lowered.specs.Types as asked_types;
ghost use Rattle.cf_lowerable_core.specs.Looks as looks;
ghost use Rattle.cf_core_nodes.specs.Views.{view, viewed};

use crate::types::{is_lowered, is_of_function, is_of_object, is_of_static};
use cf_base::Kind;
use cf_core::{Change, Core, CoreUnit, Holder};

/// The most bytes of a literal.
const MOST_BYTES: usize = 1 << 22;

/// Whether the types that a node has are lowered, and are those of what it names, makes or calls.
pub(crate) fn node_types_fit(unit: &CoreUnit, e: &Core) -> bool
    requires { unit.now.classes.defined ≡ [] }
    ensures { result ≡ asked_types.node_types_fit (view (tables_of unit.now) e.now) }
{
    match e {
        Core::Static { ty, .. } => is_of_static(unit, *ty),
        Core::Function { ty, .. }
        | Core::Call { ty, .. }
        | Core::VirtualCall { ty, .. }
        | Core::PointerCall { ty, .. }
        | Core::Build { ty, .. } => is_of_function(unit, *ty),
        Core::Convert { ty, .. }
        | Core::FromVoid { ty, .. }
        | Core::Declare { ty, .. }
        | Core::Bind {
            holder: Holder::LocalTemporary { ty, .. },
            ..
        } => is_lowered(unit, *ty),
        Core::Temporary { ty, .. } => is_of_object(unit, *ty),
        _ => true,
    }
}

/// Whether the last byte, if there is one, is 0.
fn ends_in_zero(bytes: &[u8]) -> bool
    ensures { result ≡ looks.ends_in_zero false bytes.now }
{
    let mut ends = false;
    for byte in bytes {
        ends = *byte == 0;
    }
    ends
}

/// Whether these are bytes of which 0 is the last.
fn is_text(bytes: &[u8]) -> bool
    ensures { result ≡ starts.is_text bytes.now }
{
    ends_in_zero(bytes)
}

/// Whether a literal ends in 0 and is not too long.
pub(crate) fn literal_fits(e: &Core) -> bool
    ensures { (tables : Tables) → result ≡ asked_texts.literal_fits (view tables e.now) }
{
    match e {
        Core::Text { bytes, .. } => {
            is_text(bytes.as_slice()) && bytes.as_slice().len() <= MOST_BYTES
        }
        Core::Characters { bytes, .. } => bytes.as_slice().len() <= MOST_BYTES,
        _ => true,
    }
}

/// Whether integral promotion leaves a kind as it is (4.1).
fn is_promoted(kind: Kind) -> bool
    ensures { result ≡ leaf.is_promoted kind }
{
    match kind {
        Kind::Int | Kind::UInt | Kind::Long | Kind::ULong => true,
        Kind::Char | Kind::SChar | Kind::UChar | Kind::Short | Kind::UShort => false,
    }
}

/// Whether the operator of a change in place is at such a kind, if it has one.
fn is_promoted_change(change: Change) -> bool
    ensures { result ≡ leaf.is_promoted_change (change_of change) }
{
    match change {
        Change::Arithmetic { at, .. } => is_promoted(at),
        Change::Moved { .. } => true,
    }
}

/// Whether the operator of a node is at such a kind, if it has one.
pub(crate) fn operand_is_promoted(e: &Core) -> bool
    ensures { (tables : Tables) → result ≡ asked_operators.operand_is_promoted (view tables e.now) }
{
    match e {
        Core::Operate { kind, .. } | Core::Unary { kind, .. } => is_promoted(*kind),
        Core::Update { change, .. } | Core::Increment { change, .. } => is_promoted_change(*change),
        _ => true,
    }
}

/// Whether a number is an `int`.
pub(crate) fn is_int(value: i64) -> bool
    ensures { result ≡ integers.fits Int value }
{
    -2147483648 <= value && value <= 2147483647
}

/// Whether a number is an `unsigned int`.
pub(crate) fn is_unsigned(value: i64) -> bool
    ensures { result ≡ integers.fits UInt value }
{
    0 <= value && value <= 4294967295
}

/// Whether the labels among these are of type `int`.
fn are_ints(body: &[Core]) -> bool
    ensures { (tables : Tables) → result ≡ list_all (integers.fits Int) (core_labels (viewed tables body.now)) }
{
    for s in body {
        if !label_is_int(s) {
            return false;
        }
    }
    true
}

/// Whether the labels among these are of type `unsigned int`.
fn are_unsigned(body: &[Core]) -> bool
    ensures { (tables : Tables) → result ≡ list_all (integers.fits UInt) (core_labels (viewed tables body.now)) }
{
    for s in body {
        if !label_is_unsigned(s) {
            return false;
        }
    }
    true
}

/// Whether it is of type `int`, if it is a label.
fn label_is_int(s: &Core) -> bool
    ensures { (tables : Tables) → result ≡ looks.label_passes (integers.fits Int) (view tables s.now) }
{
    match s {
        Core::Case { value, .. } => is_int(*value),
        _ => true,
    }
}

/// Whether it is of type `unsigned int`, if it is a label.
fn label_is_unsigned(s: &Core) -> bool
    ensures { (tables : Tables) → result ≡ looks.label_passes (integers.fits UInt) (view tables s.now) }
{
    match s {
        Core::Case { value, .. } => is_unsigned(*value),
        _ => true,
    }
}

/// Whether the labels among these are of one kind.
fn are_of_one_kind(body: &[Core]) -> bool
    ensures { (tables : Tables) → result ≡ labels.one_kind (core_labels (viewed tables body.now)) }
{
    are_ints(body) || are_unsigned(body)
}

/// Whether the labels of a switch are of one kind (6.4.2), if it is one.
pub(crate) fn labels_agree(e: &Core) -> bool
    ensures { (tables : Tables) → result ≡ asked_labels.labels_agree (view tables e.now) }
{
    match e {
        Core::Switch { body, .. } => are_of_one_kind(body.as_slice()),
        _ => true,
    }
}
