//! The names and the expression nodes that lowering writes.
//!
//! `cell` has scalars as registers hold them, with their C types, `names` the names of locals, registers, flags, results and literals, `nodes` the
//! nodes of C expressions, and `values` what stands in registers and in memory.
#![tactic(auto)]

mod cell;
mod names;
mod nodes;
mod values;

pub use cell::{Cell, c_integer};
pub use names::{flag_name, literal_name, local_name, register_name, result_name, type_number};
pub use nodes::{address_of, binary, cast, constant, load_at, load_named, number, unary};
pub use values::{
    address_in, as_bits, as_stored, as_value, at_kind, in_register, integer_in, loaded, zero,
};
