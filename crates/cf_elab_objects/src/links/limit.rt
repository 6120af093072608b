ghost use Rattle.cf_elab_env.specs.Answered.{Agrees};
ghost use Rattle.cf_elab_objects.specs.Links.Shut as shut;

use crate::links::text::MOST;
use cf_base::{Bound, Limit};
use cf_elab_env::{Env, Stop};

/// A link name is no longer than the limit on names.
#[tactic(auto, using(crate::proofs::LinksLaws::TextLaws::within_laws))]
pub fn check_link(env: &Env, link: &[u8]) -> Result<(), Stop>
    ensures { Agrees (shut.name_within link.now env.now) result env.now }
{
    let _env = env;
    if link.len() <= MOST {
        Ok(())
    } else {
        Err(Stop::Passed(Limit {
            bound: Bound::Names,
            most: MOST as u64,
        }))
    }
}
