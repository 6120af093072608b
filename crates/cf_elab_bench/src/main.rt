//! Says what a file is: `cf_elab_bench tree FILE` reads its tokens and their tree, and `cf_elab_bench elab FILE` elaborates the tree too.
#![tactic(auto)]

use cf_elab_env::Env;
use cf_elab_unit::elab;
use cf_parse_file::unit;
use cf_tokens::tokens;
use cf_unit::Unit;
use std::alloc::Global;
use std::{env, fs, io};

/// How far a file was followed.
#[derive(Clone, Copy, Debug)]
enum Said {
    Tree,
    Taken,
    Refused,
}

fn of_tree(alloc: Global, tree: &Unit, elaborates: bool) -> Said {
    if !elaborates {
        return Said::Tree;
    }
    match elab(alloc, tree) {
        Ok(end) => taken(end),
        Err(_) => Said::Refused,
    }
}

/// The end of a file that elaboration takes is not needed any more.
fn taken(_end: Env) -> Said {
    Said::Taken
}

fn of_text(alloc: Global, text: &[u8], elaborates: bool) -> Said {
    match tokens(alloc, text) {
        Ok(found) => match unit(alloc, found.as_slice()) {
            Ok(tree) => of_tree(alloc, &tree, elaborates),
            Err(_) => Said::Refused,
        },
        Err(_) => Said::Refused,
    }
}

fn main(rt: HostRuntime) -> io::Result<()> {
    let alloc = rt.alloc();
    let mut words = env::args(&rt)?.skip(1);
    let elaborates = match words.next() {
        Some(word) => word.as_str() == "elab",
        None => false,
    };
    let said = match words.next() {
        Some(name) => {
            let text = fs::read_to_string(&rt, name.as_str())?;
            of_text(alloc, text.as_bytes(), elaborates)
        }
        None => Said::Refused,
    };
    println!(rt; "{said:?}")
}
