//! Jobs over the objects in memory of which a call fails: what each answers, and what stands on the sinks.

use crate::outcome::Outcome;
use crate::tests::{Failing, Job, NONE_FAILS, SEVEN, check, check_output, go_seven};
use std::test::Fail;

#[test]
fn missing_file_is_a_fault(rt: HostRuntime) -> Result<(), Fail> {
    let job = Job {
        words: &["go", "b.C"],
        text: SEVEN,
        failing: NONE_FAILS,
    };
    check(
        &rt,
        rt.alloc(),
        &job,
        Outcome::FileFault,
        "cfront: file fault\n",
    )
}

#[test]
fn each_call_on_files_fails_in_turn(rt: HostRuntime) -> Result<(), Fail> {
    for number in 1..3u32 {
        let failing = Failing {
            files: number,
            out: 0,
            err: 0,
        };
        check(
            &rt,
            rt.alloc(),
            &go_seven(failing),
            Outcome::FileFault,
            "cfront: file fault\n",
        )?;
    }
    Ok(())
}

#[test]
fn each_call_on_out_fails_in_turn(rt: HostRuntime) -> Result<(), Fail> {
    for (number, output) in [(1, ""), (2, "A"), (3, "AB")] {
        let job = Job {
            words: &["go", "a.C"],
            text: b"int main(){putchar(65);putchar(66);return 0;}",
            failing: Failing {
                files: 0,
                out: number,
                err: 0,
            },
        };
        check_output(
            &rt,
            rt.alloc(),
            &job,
            Outcome::SinkFault,
            output,
            "cfront: sink fault\n",
        )?;
    }
    Ok(())
}

/// The line is put in twelve pieces, the first nine of which are empty here.
#[test]
fn each_call_on_err_fails_in_turn(rt: HostRuntime) -> Result<(), Fail> {
    for (number, front) in [
        (1, ""),
        (10, ""),
        (11, "cfront: ended "),
        (12, "cfront: ended 7"),
    ] {
        let failing = Failing {
            files: 0,
            out: 0,
            err: number,
        };
        check(
            &rt,
            rt.alloc(),
            &go_seven(failing),
            Outcome::SinkFault,
            front,
        )?;
    }
    Ok(())
}
