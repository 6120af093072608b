//! Units that keep the rules of validity, and units that differ from them by one fault.

use crate::trial::valid;
use std::alloc::Global;
use std::process::Abort;
use std::test::Fail;

/// A text that keeps a rule, and one that breaks it.
type Row = (&'static str, &'static str);

/// V1 and V2: what a name is declared as.
const NAMES: [Row; 8] = [
    (
        "int n; int f(void) { return n; }",
        "int f(void) { return n; } int n;",
    ),
    (
        "int g(void); void f(void) { g(); }",
        "void f(void) { g(); } int g(void);",
    ),
    (
        "int n; void f(void) { char *p; p = (char *)&n; }",
        "void f(void) { char *p; p = (char *)&n; }",
    ),
    ("int n; extern int n;", "int n; extern char n;"),
    ("extern int n; int n;", "int n; int n;"),
    (
        "int f(char *p); int f(char *q) { return 1; }",
        "int f(char *p); int f(int p) { return 1; }",
    ),
    ("void f(int a, int b) { }", "void f(int a, int a) { }"),
    (
        "void f(int a) { int b; { int a; } }",
        "void f(int a) { int b; int b; }",
    ),
];

/// V3: the operands of expressions, in a function with `int x; char *p; __f f;`.
const OPERANDS: [Row; 11] = [
    ("x = x - 1;", "x = 1 - p;"),
    ("p = p + x;", "p = p * x;"),
    ("p = 4 + p;", "p = p + p;"),
    ("x = p - p;", "x = p - f;"),
    ("x = p < p;", "x = f < f;"),
    ("x = f == 0;", "x = f == 1;"),
    ("x = ~x;", "x = ~p;"),
    ("x = (int)(char)x;", "x = (int)p;"),
    ("p = (char *)0;", "p = (char *)x;"),
    ("if (x) { }", "if (p) { }"),
    ("x = *(int *)(p);", "x = *(int *)(x);"),
];

/// V4 to V6: what is stored, passed and returned, in the same function, of the result `int`.
const FITTING: [Row; 10] = [
    ("x = (int)(char)1;", "x = (char)1;"),
    ("p = 0;", "p = 1;"),
    ("f = 0;", "f = p;"),
    ("*(char *)(p) = (char)1;", "*(char *)(p) = 1;"),
    ("x = getchar();", "p = getchar();"),
    ("p = malloc(8u);", "p = malloc(8);"),
    ("putchar(x);", "putchar(x, x);"),
    ("free(p);", "free(0);"),
    ("return x;", "return p;"),
    ("return 0;", "return;"),
];

/// V7 and V8: `break`, `continue` and labels.
const INSIDE: [Row; 5] = [
    ("for (;;) { break; }", "{ break; }"),
    (
        "switch (x) { case 1: break; }",
        "switch (x) { case 1: continue; }",
    ),
    ("for (;;) { continue; }", "if (x) { continue; }"),
    (
        "switch (x) { case -1: case 4294967294u: }",
        "switch (x) { case -1: case 4294967295u: }",
    ),
    (
        "switch (x) { default: }",
        "switch (x) { default: default: }",
    ),
];

/// V9 and V10: helpers, `main` and the functions with types of their own.
const OWN: [Row; 9] = [
    (
        "int __ha(void) { return 1; } int f(void) { int x; x = __ha(); return x; }",
        "int __ha(void) { return 1; } int __hb(void) { int x; x = __ha(); return x; }",
    ),
    (
        "void r(void) { } void f(void) { atexit(r); }",
        "void r(void) { } void __hf(void) { atexit(r); }",
    ),
    (
        "void f(__f g) { ((void (*)(void))(g))(); }",
        "void __hf(__f g) { ((void (*)(void))(g))(); }",
    ),
    ("int main(void) { return 0; }", "void main(void) { }"),
    (
        "int main(void) { return 0; } int f(void) { return 1; }",
        "int main(void) { return 0; } int f(void) { int x; x = main(); return x; }",
    ),
    (
        "int __main(void) { return 0; }",
        "int __main(int n) { return 0; }",
    ),
    ("void __sti(void) { }", "int __sti(void) { return 0; }"),
    ("int putchar(int d);", "int putchar(int d) { return d; }"),
    ("int getchar(void);", "char getchar(void);"),
];

/// V11 and V12: arrays and their initialisers, and shared definitions.
const VARIABLES: [Row; 8] = [
    ("int a[1];", "int a[0];"),
    ("int a[4194304];", "int a[4194305];"),
    ("char s[2] = \"ab\";", "char s[1] = \"ab\";"),
    (
        "struct __e t[1] = { { 1, 0 } };",
        "struct __e t[1] = { { 1, 0 }, { 2, 0 } };",
    ),
    (
        "int f(void) { return 1; } struct __e t[1] = { { 1, f } };",
        "struct __e t[1] = { { 1, f } };",
    ),
    ("void f(void) { int a[1]; }", "void f(void) { int a[0]; }"),
    (
        "\n#pragma cf_shared\nint n;",
        "\n#pragma cf_shared\nstatic int n;",
    ),
    (
        "\n#pragma cf_shared\nvoid f(void) { }",
        "\n#pragma cf_shared\nstatic void f(void) { }",
    ),
];

fn kept_and_broken(rt: &impl Abort, alloc: Global, rows: &[Row]) -> Result<(), Fail> {
    for (kept, broken) in rows {
        assert!(rt; valid(alloc, kept)?, "{kept}");
        assert!(rt; !valid(alloc, broken)?, "{broken}");
    }
    Ok(())
}

fn kept_and_broken_inside(rt: &impl Abort, alloc: Global, rows: &[Row]) -> Result<(), Fail> {
    for (kept, broken) in rows {
        let kept = format!(in alloc; "int k(void) {{ int x; char *p; __f f; {kept} }}")?;
        let broken = format!(in alloc; "int k(void) {{ int x; char *p; __f f; {broken} }}")?;
        assert!(rt; valid(alloc, kept.as_str())?, "{kept}");
        assert!(rt; !valid(alloc, broken.as_str())?, "{broken}");
    }
    Ok(())
}

#[test]
fn names(rt: HostRuntime) -> Result<(), Fail> {
    kept_and_broken(&rt, rt.alloc(), NAMES.as_slice())
}

#[test]
fn operands(rt: HostRuntime) -> Result<(), Fail> {
    kept_and_broken_inside(&rt, rt.alloc(), OPERANDS.as_slice())
}

#[test]
fn what_fits(rt: HostRuntime) -> Result<(), Fail> {
    kept_and_broken_inside(&rt, rt.alloc(), FITTING.as_slice())
}

#[test]
fn what_stands_inside(rt: HostRuntime) -> Result<(), Fail> {
    kept_and_broken_inside(&rt, rt.alloc(), INSIDE.as_slice())
}

#[test]
fn functions_with_types_of_their_own(rt: HostRuntime) -> Result<(), Fail> {
    kept_and_broken(&rt, rt.alloc(), OWN.as_slice())
}

#[test]
fn variables(rt: HostRuntime) -> Result<(), Fail> {
    kept_and_broken(&rt, rt.alloc(), VARIABLES.as_slice())
}
