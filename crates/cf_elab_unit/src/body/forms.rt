ghost use Rattle.std.specs.Prelude.{OnOk};
ghost use Rattle.cf_elab_env.specs.Answered.{Agrees};
ghost use Rattle.cf_elab_env.specs.Holds.{Grows};
ghost use Rattle.cf_elab_unit.specs.Body.Shut as shut;

use crate::body::{built, lists, loops, simple};
use cf_elab_env::{Env, Stop};
use cf_elab_made::Made;
use cf_unit::Stmt;

/// What a statement is: its parts from left to right, and then what its construct asks of them (6).
#[cycle(statements)]
#[tactic(auto, using(crate::proofs::BodyLaws::Parts::if_is, crate::proofs::BodyLaws::Parts::for_is, cf_elab_env::proofs::Growth::grown_laws))]
pub fn statement(s: &Stmt, env: &mut Env) -> Result<Made, Stop>
    requires { shut.IsBuilt s.now }
    ensures made { Agrees (shut.statement s.now env.old) result env.new }
    ensures grows { OnOk result (Grows env.old.types env.new.types) }
{
    match s {
        Stmt::Declaration(d) => simple::declaration(d, env),
        Stmt::Block(at, all) => lists::block(all, *at, env),
        Stmt::Empty(at) => simple::empty(*at, env),
        Stmt::Expression(at, e) => simple::expression(e, *at, env),
        Stmt::If(at, e, yes, no) => {
            built::conditional(*at, e, yes, no);
            let chosen = loops::chosen(yes, e, env)?;
            let made = lists::otherwise(no, *at, chosen, env)?;
            Ok(made)
        }
        Stmt::While(at, e, body) => loops::while_loop(body, *at, e, env),
        Stmt::Do(at, body, e) => loops::do_loop(body, *at, e, env),
        Stmt::For(at, first, e, step, body) => {
            built::for_loop(*at, first, e, step, body);
            let first = statement(first.get(), env)?;
            let made = loops::for_loop(body, *at, first, e, step, env)?;
            Ok(made)
        }
        Stmt::Switch(at, e, all) => lists::switch(all, *at, e, env),
        Stmt::Case(at, e) => simple::case(e, *at, env),
        Stmt::Default(at) => simple::default(*at, env),
        Stmt::Break(at) => simple::break_from(*at, env),
        Stmt::Continue(at) => simple::continue_with(*at, env),
        Stmt::Return(at, e) => simple::return_from(e, *at, env),
    }
}
