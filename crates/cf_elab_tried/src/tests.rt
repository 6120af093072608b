//! Each table is walked: its rows are answered as they say.

use crate::answers::{compare, compare_whole};
use crate::rows::{declarations, expressions, objects, statements, whole};
use std::test::Fail;

#[test]
fn rows_of_declarations(rt: HostRuntime) -> Result<(), Fail> {
    compare(&rt, rt.alloc(), "", &declarations::NAMES, "")?;
    compare(&rt, rt.alloc(), "", &declarations::SPECIFIERS, "")?;
    compare(&rt, rt.alloc(), "", &declarations::DECLARATORS, "")?;
    compare(&rt, rt.alloc(), "", &declarations::ENUMERATIONS, "")?;
    compare(&rt, rt.alloc(), "", &declarations::FUNCTIONS, "")
}

#[test]
fn rows_of_objects(rt: HostRuntime) -> Result<(), Fail> {
    compare(&rt, rt.alloc(), "", &objects::INITIALISERS, "")?;
    compare(&rt, rt.alloc(), "", &objects::REFERENCES, "")?;
    compare(&rt, rt.alloc(), "", &objects::LISTS, "")
}

#[test]
fn rows_of_expressions(rt: HostRuntime) -> Result<(), Fail> {
    let before = expressions::BEFORE;
    let behind = expressions::BEHIND;
    compare(&rt, rt.alloc(), before, &expressions::ASSIGNMENTS, behind)?;
    compare(&rt, rt.alloc(), before, &expressions::OPERATORS, behind)?;
    compare(&rt, rt.alloc(), before, &expressions::CHOICES, behind)?;
    compare(&rt, rt.alloc(), "", &expressions::CALLS, "")
}

#[test]
fn rows_of_statements(rt: HostRuntime) -> Result<(), Fail> {
    let before = expressions::BEFORE;
    let behind = expressions::BEHIND;
    compare(&rt, rt.alloc(), before, &statements::STATEMENTS, behind)?;
    compare(&rt, rt.alloc(), "", &statements::RETURNS, "")
}

#[test]
fn whole_files_have_cores(rt: HostRuntime) -> Result<(), Fail> {
    compare_whole(&rt, rt.alloc(), &whole::FILES)
}
