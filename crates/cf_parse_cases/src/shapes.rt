//! The shapes of statements, in letters.
//!
//! `D` is a declaration, `E` an expression, `;` the empty statement, `{..}` a block, `I(x|y)` an `if` with what follows `else`, `W` a `while`,
//! `O` a `do`, `F` a `for` with its first part and its body, `S{..}` a `switch`, `c` and `d` are labels, `b`, `n` and `r` break,
//! continue and return.

use cf_unit::{Item, Stmt, Unit};
use std::test::Fail;

fn show_all(out: &mut String, all: &[Stmt]) -> Result<(), Fail> {
    for s in all {
        show(out, s)?;
    }
    Ok(())
}

/// Writes the shape of a statement.
fn show(out: &mut String, s: &Stmt) -> Result<(), Fail> {
    match s {
        Stmt::Declaration(_) => out.push('D')?,
        Stmt::Block(_, all) => {
            out.push('{')?;
            for inner in all.as_slice() {
                show(out, inner)?;
            }
            out.push('}')?;
        }
        Stmt::Empty(_) => out.push(';')?,
        Stmt::Expression(_, _) => out.push('E')?,
        Stmt::If(_, _, then, otherwise) => {
            out.push_str("I(")?;
            show(out, then.get())?;
            if let Some(other) = otherwise {
                out.push('|')?;
                show(out, other.get())?;
            }
            out.push(')')?;
        }
        Stmt::While(_, _, body) => {
            out.push_str("W(")?;
            show(out, body.get())?;
            out.push(')')?;
        }
        Stmt::Do(_, body, _) => {
            out.push_str("O(")?;
            show(out, body.get())?;
            out.push(')')?;
        }
        Stmt::For(_, first, _, _, body) => {
            out.push_str("F(")?;
            show(out, first.get())?;
            show(out, body.get())?;
            out.push(')')?;
        }
        Stmt::Switch(_, _, all) => {
            out.push_str("S{")?;
            for inner in all.as_slice() {
                show(out, inner)?;
            }
            out.push('}')?;
        }
        Stmt::Case(_, _) => out.push('c')?,
        Stmt::Default(_) => out.push('d')?,
        Stmt::Break(_) => out.push('b')?,
        Stmt::Continue(_) => out.push('n')?,
        Stmt::Return(_, _) => out.push('r')?,
    }
    Ok(())
}

/// Writes the shapes of the statements in the bodies of a file's functions.
pub fn show_bodies(out: &mut String, unit: &Unit) -> Result<(), Fail> {
    for item in unit.items.as_slice() {
        if let Item::Function(f) = item {
            show_all(out, f.get().body.as_slice())?;
        }
    }
    Ok(())
}
