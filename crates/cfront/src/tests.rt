//! Jobs over the objects in memory: what each answers, and what stands on the sinks.

ghost use Rattle.std.specs.Prelude.{◌≤◌, ◌^◌};

use crate::go::go_with;
use crate::outcome::{Outcome, status};
use crate::top::{DEFAULT_LIMITS, cfront};
use cc_whole_memory::Act;
use cc_whole_run::Limits;
use cf_base::{Files, MemFiles, MemSink, MemSource, Memory, Name, Rule};
use std::alloc::{AllocError, Global};
use std::process::Abort;
use std::test::Fail;

pub const SEVEN: &[u8] = b"int main(){return 7;}";

/// The numbers of the calls that fail.
#[derive(Clone, Copy)]
pub struct Failing {
    pub files: u32,
    pub out: u32,
    pub err: u32,
}

pub const NONE_FAILS: Failing = Failing {
    files: 0,
    out: 0,
    err: 0,
};

fn numbers(alloc: Global, number: u32) -> Result<Vec<u32>, AllocError> {
    Vec::from_slice(alloc, &[number])
}

fn texts(alloc: Global, words: &[&str]) -> Result<Vec<String>, AllocError> {
    let mut list = Vec::new(alloc);
    for word in words {
        list.push(String::from_str(alloc, word)?)?;
    }
    Ok(list)
}

fn file(alloc: Global, text: &[u8], failing: Failing) -> Result<MemFiles, AllocError> {
    let mut pairs = Vec::new(alloc);
    let name = String::from_str(alloc, "a.C")?;
    pairs.push((name, Vec::from_slice(alloc, text)?))?;
    Ok(MemFiles::new(alloc, pairs, numbers(alloc, failing.files)?))
}

/// A job that was done: its words, what `a.C` held, and the calls that failed.
#[derive(Drop)]
pub struct Job<'a> {
    pub words: &'a [&'a str],
    pub text: &'a [u8],
    pub failing: Failing,
}

/// Does a job, and checks its answer, its output and the line on `err`.
pub fn check_output(
    rt: &impl Abort,
    alloc: Global,
    job: &Job<'_>,
    want: Outcome,
    output: &str,
    line: &str,
) -> Result<(), Fail> {
    let failing = job.failing;
    let mut files = file(alloc, job.text, failing)?;
    let mut input = MemSource::new(Vec::new(alloc), Vec::new(alloc));
    let mut out = MemSink::new(alloc, 100, numbers(alloc, failing.out)?)?;
    let mut err = MemSink::new(alloc, 100, numbers(alloc, failing.err)?)?;
    let words = texts(alloc, job.words)?;
    let answer = cfront(alloc, &words, &mut files, &mut input, &mut out, &mut err);
    assert!(rt; answer == Ok(want), "{line}");
    assert_eq!(rt; err.bytes(), line.as_bytes());
    assert_eq!(rt; out.bytes(), output.as_bytes());
    Ok(())
}

/// Does a job without output, and checks its answer and the line on `err`.
pub fn check(
    rt: &impl Abort,
    alloc: Global,
    job: &Job<'_>,
    want: Outcome,
    line: &str,
) -> Result<(), Fail> {
    check_output(rt, alloc, job, want, "", line)
}

/// Does `go` on a file with this text, and checks its answer, its output and the line on `err`.
pub fn check_text(
    rt: &impl Abort,
    alloc: Global,
    text: &[u8],
    want: Outcome,
    output: &str,
    line: &str,
) -> Result<(), Fail> {
    let job = Job {
        words: &["go", "a.C"],
        text,
        failing: NONE_FAILS,
    };
    check_output(rt, alloc, &job, want, output, line)
}

fn refused(number: u8, at: u32) -> Outcome
    requires from_one { 1 ≤ number }
    requires to_last { number ≤ 48 }
{
    Outcome::Refused {
        file: 1,
        rule: Rule::new(number),
        at,
    }
}

pub fn go_seven(failing: Failing) -> Job<'static> {
    Job {
        words: &["go", "a.C"],
        text: SEVEN,
        failing,
    }
}

#[test]
fn return_seven(rt: HostRuntime) -> Result<(), Fail> {
    let want = Outcome::Ended { status: 7 };
    check(
        &rt,
        rt.alloc(),
        &go_seven(NONE_FAILS),
        want,
        "cfront: ended 7\n",
    )
}

#[test]
fn other_words_are_usage(rt: HostRuntime) -> Result<(), Fail> {
    let line = "usage: cfront go|translate|layout|link|run|name|sample\n";
    let lists: [&[&str]; 9] = [
        &[],
        &["go"],
        &["go", "a.C", "b.C"],
        &["go", "-n"],
        &["go", ""],
        &["run", "a.C"],
        &["go", "-n", "5", "-n", "6", "a.C"],
        &["go", "a", "a.c"],
        &["sample", "0"],
    ];
    for words in lists {
        let job = Job {
            words,
            text: SEVEN,
            failing: NONE_FAILS,
        };
        check(&rt, rt.alloc(), &job, Outcome::Usage, line)?;
    }
    Ok(())
}

#[test]
fn comment_is_skipped(rt: HostRuntime) -> Result<(), Fail> {
    let want = Outcome::Ended { status: 31 };
    let text = b"int main(){return 0x1F;} // end";
    check_text(&rt, rt.alloc(), text, want, "", "cfront: ended 31\n")
}

#[test]
fn line_markers_are_skipped(rt: HostRuntime) -> Result<(), Fail> {
    let want = Outcome::Ended { status: 1 };
    let text = b"#line 4 \"y.c\"\nint main(){return 1;}";
    check_text(&rt, rt.alloc(), text, want, "", "cfront: ended 1\n")
}

#[test]
fn lexical_faults_come_first(rt: HostRuntime) -> Result<(), Fail> {
    let alloc = rt.alloc();
    let directive = b"#define X\nint main(){return 1;}";
    let line = "a.C:1:1: K7 (16) directive\n";
    check_text(&rt, alloc, directive, refused(7, 0), "", line)?;
    let comment = b"int main(){return x;}\n /* no end";
    let line = "a.C:2:2: K2 (2.2) comment without end\n";
    check_text(&rt, alloc, comment, refused(2, 23), "", line)
}

#[test]
fn constants_have_their_types(rt: HostRuntime) -> Result<(), Fail> {
    let want = Outcome::Ended { status: 1 };
    let constants = b"int main(){return 1u-2u>0;}";
    check_text(&rt, rt.alloc(), constants, want, "", "cfront: ended 1\n")
}

#[test]
fn rules_of_names_are_broken_at_the_name(rt: HostRuntime) -> Result<(), Fail> {
    let second_local = b"int main(){int a=1;\nint a=2;}";
    let line = "a.C:2:5: K8 (3.1) declared twice\n";
    check_text(&rt, rt.alloc(), second_local, refused(8, 24), "", line)?;
    let no_argument = b"int f(int a){return a;}int main(){return f();}";
    let line = "a.C:1:42: K15 (5.2.2) wrong number of arguments\n";
    check_text(&rt, rt.alloc(), no_argument, refused(15, 41), "", line)?;
    let second_parameter = b"int f(int a,int a){return a;}int main(){return f(1,2);}";
    let line = "a.C:1:17: K8 (3.1) declared twice\n";
    check_text(&rt, rt.alloc(), second_parameter, refused(8, 16), "", line)?;
    let before_a_second_function = b"int f(){return 1;}int main(){return x;}int f(){return 2;}";
    let line = "a.C:1:37: K10 (3.2) undeclared name\n";
    check_text(
        &rt,
        rt.alloc(),
        before_a_second_function,
        refused(10, 36),
        "",
        line,
    )
}

/// The answer to a text that does not link for want of `main`.
fn no_main(alloc: Global) -> Result<Outcome, Fail> {
    Ok(Outcome::LinkRefused {
        rule: 4,
        name: Name::from_slice(alloc, b"__main")?,
    })
}

#[test]
fn file_without_main_does_not_link(rt: HostRuntime) -> Result<(), Fail> {
    let alloc = rt.alloc();
    let line = "link: L4 __main\n";
    for text in [b"".as_slice(), b" /* */\n", b"int f(){return 1;}"] {
        check_text(&rt, alloc, text, no_main(alloc)?, "", line)?;
    }
    let answer = Ok(no_main(alloc)?);
    assert_eq!(rt; status(&answer), 103);
    Ok(())
}

#[test]
fn text_without_main_stands_beside_the_file(rt: HostRuntime) -> Result<(), Fail> {
    let alloc = rt.alloc();
    let mut files = file(alloc, b"int f(){return 1;}", NONE_FAILS)?;
    let mut input = MemSource::new(Vec::new(alloc), Vec::new(alloc));
    let mut out = MemSink::new(alloc, 100, Vec::new(alloc))?;
    let mut err = MemSink::new(alloc, 100, Vec::new(alloc))?;
    let words = texts(alloc, &["go", "a.C"])?;
    let answer = cfront(alloc, &words, &mut files, &mut input, &mut out, &mut err);
    assert!(rt; answer == Ok(no_main(alloc)?));
    let written = files.read("a.C.c", 1000);
    assert!(rt; written.is_ok_and(|text| text.starts_with(b"#pragma cfront 1\n")));
    Ok(())
}

#[test]
fn unmatched_bracket_is_not_in_the_grammar(rt: HostRuntime) -> Result<(), Fail> {
    let line = "a.C:1:11: K6 (17) tokens not in the grammar\n";
    let text = b"int main(){return 7";
    check_text(&rt, rt.alloc(), text, refused(6, 10), "", line)
}

#[test]
fn declaration_of_a_local_in_brackets(rt: HostRuntime) -> Result<(), Fail> {
    let want = Outcome::Ended { status: 5 };
    let text = b"typedef int T;int main(){T(x);x=5;return x;}";
    check_text(&rt, rt.alloc(), text, want, "", "cfront: ended 5\n")
}

#[test]
fn class_is_outside(rt: HostRuntime) -> Result<(), Fail> {
    let line = "a.C:1:1: K48 outside the profile\n";
    let text = b"struct S{int n;};int main(){return 0;}";
    check_text(&rt, rt.alloc(), text, refused(48, 0), "", line)
}

#[test]
fn text_stands_beside_the_file(rt: HostRuntime) -> Result<(), Fail> {
    let alloc = rt.alloc();
    let mut files = file(alloc, SEVEN, NONE_FAILS)?;
    let mut input = MemSource::new(Vec::new(alloc), Vec::new(alloc));
    let mut out = MemSink::new(alloc, 100, Vec::new(alloc))?;
    let mut err = MemSink::new(alloc, 100, Vec::new(alloc))?;
    let words = texts(alloc, &["go", "a.C"])?;
    let answer = cfront(alloc, &words, &mut files, &mut input, &mut out, &mut err);
    assert!(rt; answer == Ok(Outcome::Ended { status: 7 }));
    let written = files.read("a.C.c", 1000);
    assert!(rt; written.is_ok_and(|text| text.starts_with(b"#pragma cfront 1\n")));
    let source = files.read("a.C", 1000);
    assert!(rt; source.is_ok_and(|text| text.as_slice() == SEVEN));
    Ok(())
}

#[test]
fn undeclared_name(rt: HostRuntime) -> Result<(), Fail> {
    let line = "a.C:1:19: K10 (3.2) undeclared name\n";
    check_text(
        &rt,
        rt.alloc(),
        b"int main(){return x;}",
        refused(10, 18),
        "",
        line,
    )
}

#[test]
fn forward_call_is_undeclared(rt: HostRuntime) -> Result<(), Fail> {
    let line = "a.C:2:8: K10 (3.2) undeclared name\n";
    check_text(
        &rt,
        rt.alloc(),
        b"int main(){\nreturn f(1);}int f(int n){return n;}",
        refused(10, 19),
        "",
        line,
    )
}

#[test]
fn overflow_after_output(rt: HostRuntime) -> Result<(), Fail> {
    let want = Outcome::Undefined { act: Act::A1 };
    check_text(
        &rt,
        rt.alloc(),
        b"int main(){putchar(97);return 2147483647+1;}",
        want,
        "a",
        "cfront: undefined act A1\n",
    )
}

#[test]
fn value_of_a_function_that_gave_none(rt: HostRuntime) -> Result<(), Fail> {
    let want = Outcome::Ended { status: 0 };
    check_text(
        &rt,
        rt.alloc(),
        b"int f(){}int main(){f();return f();}",
        want,
        "",
        "cfront: ended 0\n",
    )
}

#[test]
fn recursion_is_too_deep(rt: HostRuntime) -> Result<(), Fail> {
    let text = b"int f(int n){return f(n);}int main(){return f(0);}";
    check_text(
        &rt,
        rt.alloc(),
        text,
        Outcome::Depth,
        "",
        "cfront: too deep\n",
    )
}

#[test]
fn arguments_are_evaluated_left_to_right(rt: HostRuntime) -> Result<(), Fail> {
    let text =
        b"int g(int a){putchar(48+a);return a;}int f(int a,int b){return a+b;}int main(){return f(g(1),g(2));}";
    let want = Outcome::Ended { status: 3 };
    check_text(&rt, rt.alloc(), text, want, "12", "cfront: ended 3\n")
}

#[test]
fn brackets_matter(rt: HostRuntime) -> Result<(), Fail> {
    let text = b"int main(){int a=9;int b=4;int c=3;return a-(b-c);}";
    let want = Outcome::Ended { status: 8 };
    check_text(&rt, rt.alloc(), text, want, "", "cfront: ended 8\n")
}

#[test]
fn sum_with_output(rt: HostRuntime) -> Result<(), Fail> {
    let text =
        b"int f(int n){int s=0;while(0<n){s=s+n;n=n-1;}return s;}int main(){putchar(65);return f(4);}";
    let want = Outcome::Ended { status: 10 };
    check_text(&rt, rt.alloc(), text, want, "A", "cfront: ended 10\n")
}

/// What `go` answers on a file with this text, within so many ticks, and what it leaves on `err`.
fn check_within(
    rt: &impl Abort,
    alloc: Global,
    text: &[u8],
    ticks: u64,
    want: Outcome,
    line: &str,
) -> Result<(), Fail>
    requires { ticks ≤ 2 ^ 40 }
{
    let limits = Limits {
        ticks,
        ..DEFAULT_LIMITS
    };
    let mut files = file(alloc, text, NONE_FAILS)?;
    let mut input = MemSource::new(Vec::new(alloc), Vec::new(alloc));
    let mut out = MemSink::new(alloc, 100, Vec::new(alloc))?;
    let mut err = MemSink::new(alloc, 100, Vec::new(alloc))?;
    let mut names = Vec::new(alloc);
    names.push(String::from_str(alloc, "a.C")?)?;
    let answer = go_with(
        alloc, limits, false, None, &names, &mut files, &mut input, &mut out, &mut err,
    );
    assert!(rt; answer == Ok(want), "{line}");
    assert_eq!(rt; err.bytes(), line.as_bytes());
    Ok(())
}

#[test]
fn ticks_run_out(rt: HostRuntime) -> Result<(), Fail> {
    let alloc = rt.alloc();
    let out_of_ticks = "cfront: out of ticks\n";
    let ended = Outcome::Ended { status: 7 };
    check_within(&rt, alloc, SEVEN, 0, Outcome::Ticks, out_of_ticks)?;
    check_within(&rt, alloc, SEVEN, 1, ended, "cfront: ended 7\n")?;
    let loop_without_end = b"int main(){while(0==0){}}";
    check_within(
        &rt,
        alloc,
        loop_without_end,
        1000,
        Outcome::Ticks,
        out_of_ticks,
    )
}

#[test]
fn statuses(rt: HostRuntime) {
    for (code, want) in [
        (7, 7),
        (255, 255),
        (256, 0),
        (-1, 255),
        (2147483647, 255),
        (-256, 0),
    ] {
        assert_eq!(rt; status(&Ok(Outcome::Ended { status: code })), want);
    }
    assert_eq!(rt; status(&Ok(Outcome::Usage)), 101);
    assert_eq!(rt; status(&Ok(Outcome::FileFault)), 104);
    assert_eq!(rt; status(&Ok(Outcome::Ticks)), 107);
    assert_eq!(rt; status(&Ok(Outcome::Depth)), 108);
    assert_eq!(rt; status(&Ok(Outcome::Undefined { act: Act::A1 })), 110);
    assert_eq!(rt; status(&Err(Memory)), 109);
}
