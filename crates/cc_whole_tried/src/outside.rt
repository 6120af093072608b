//! Programs whose output is known from elsewhere.

use crate::trial::{LONG, Want, runs};
use cc_whole_run::End;
use std::alloc::Global;
use std::process::Abort;
use std::test::Fail;

/// `void number(int n)` puts a number in decimal, and a blank.
const NUMBER: &str =
    "void digits(int n) { if (n > 9) { digits(n / 10); } putchar(48 + (n % 10)); } void number(int n) { if (n < 0) { putchar(45); n = -n; } digits(n); putchar(32); }";

const FIBONACCI: &str =
    "int fib(int n) { int a; int b; if (n < 2) { return n; } a = fib(n - 1); b = fib(n - 2); return a + b; }";

const ACKERMANN: &str =
    "int ack(int m, int n) { int k; if (m == 0) { return n + 1; } if (n == 0) { n = ack(m - 1, 1); return n; } k = ack(m, n - 1); n = ack(m - 1, k); return n; }";

const PARITY: &str =
    "int odd(int n); int even(int n) { int r; if (n == 0) { return 1; } r = odd(n - 1); return r; } int odd(int n) { int r; if (n == 0) { return 0; } r = even(n - 1); return r; }";

const COLLATZ: &str =
    "int steps(int n) { int k; k = 0; for (;;) { if (n == 1) { return k; } if (n % 2) { n = (3 * n) + 1; } else { n = n / 2; } k = k + 1; } }";

const SIEVE: &str =
    "int sieve[50]; void primes(void) { int i; int j; i = 2; for (;;) { if (i >= 50) { return; } if (*(int *)(sieve + (4 * i)) == 0) { number(i); j = i * i; for (;;) { if (j >= 50) { break; } *(int *)(sieve + (4 * j)) = 1; j = j + i; } } i = i + 1; } }";

const SORT: &str =
    "void sort(char *s, int n) { int i; int j; int t; char *p; i = 0; for (;;) { if (i >= n) { return; } j = i; for (;;) { if (j == 0) { break; } p = s + (4 * j); if (*(int *)(p - 4) <= *(int *)(p)) { break; } t = *(int *)(p); *(int *)(p) = *(int *)(p - 4); *(int *)(p - 4) = t; j = j - 1; } i = i + 1; } }";

const LIST: &str =
    "char *node(int v, char *next) { char *p; p = malloc(8u); *(int *)(p) = v; *(char **)(p + 4) = next; return p; } void show(char *p) { char *q; for (;;) { if (p == 0) { return; } number(*(int *)(p)); q = *(char **)(p + 4); free(p); p = q; } }";

const TABLE: &str =
    "int twice(int n) { return n + n; } int square(int n) { return n * n; } struct __e table[2] = { { 1, twice }, { 2, square } };";

const GREETING: &str =
    "char text[14] = \"hello, world\\012\"; void say(char *p) { for (;;) { if (*(char *)(p) == (char)0) { return; } putchar((int)*(char *)(p)); p = p + 1; } }";

const HANOI: &str =
    "void hanoi(int n, int a, int b, int c) { if (n == 0) { return; } hanoi(n - 1, a, c, b); putchar(a); putchar(b); putchar(32); hanoi(n - 1, c, b, a); }";

fn puts(
    rt: &impl Abort,
    alloc: Global,
    items: &str,
    main: &str,
    out: &str,
    entered: u64,
) -> Result<(), Fail> {
    let items = format!(in alloc; "{NUMBER} {items}")?;
    let main = format!(in alloc; "{main} return 0;")?;
    let want = Want {
        out: out.as_bytes(),
        entered,
        end: End::Ended { status: 0 },
    };
    runs(rt, alloc, LONG, items.as_str(), main.as_str(), want)
}

/// `fib(10)` makes 177 calls.
#[test]
fn fibonacci(rt: HostRuntime) -> Result<(), Fail> {
    puts(
        &rt,
        rt.alloc(),
        FIBONACCI,
        "x = fib(10); number(x);",
        "55 ",
        180,
    )
}

/// `ack(2, 3)` makes 44 calls.
#[test]
fn ackermann(rt: HostRuntime) -> Result<(), Fail> {
    puts(
        &rt,
        rt.alloc(),
        ACKERMANN,
        "x = ack(2, 3); number(x);",
        "9 ",
        46,
    )
}

#[test]
fn functions_that_call_each_other(rt: HostRuntime) -> Result<(), Fail> {
    puts(
        &rt,
        rt.alloc(),
        PARITY,
        "x = even(10); number(x); x = even(7); number(x);",
        "1 0 ",
        23,
    )
}

/// The number 27 takes 111 steps.
#[test]
fn collatz(rt: HostRuntime) -> Result<(), Fail> {
    puts(
        &rt,
        rt.alloc(),
        COLLATZ,
        "x = steps(27); number(x);",
        "111 ",
        5,
    )
}

#[test]
fn primes(rt: HostRuntime) -> Result<(), Fail> {
    puts(
        &rt,
        rt.alloc(),
        SIEVE,
        "primes();",
        "2 3 5 7 11 13 17 19 23 29 31 37 41 43 47 ",
        42,
    )
}

#[test]
fn insertion_sort(rt: HostRuntime) -> Result<(), Fail> {
    let main =
        "*(int *)(a) = 5; *(int *)(a + 4) = -3; sort(a, 2); number(*(int *)(a)); number(*(int *)(a + 4));";
    puts(&rt, rt.alloc(), SORT, main, "-3 5 ", 5)
}

#[test]
fn a_list_on_the_heap(rt: HostRuntime) -> Result<(), Fail> {
    let main = "p = node(1, (char *)0); p = node(2, p); p = node(3, p); show(p);";
    puts(&rt, rt.alloc(), LIST, main, "3 2 1 ", 10)
}

#[test]
fn a_table_of_functions(rt: HostRuntime) -> Result<(), Fail> {
    let main =
        "f = *(__f *)(table + 4); x = ((int (*)(int))(f))(7); number(x); f = *(__f *)(table + 12); x = ((int (*)(int))(f))(7); number(x);";
    puts(&rt, rt.alloc(), TABLE, main, "14 49 ", 8)
}

#[test]
fn a_string_is_put(rt: HostRuntime) -> Result<(), Fail> {
    puts(&rt, rt.alloc(), GREETING, "say(text);", "hello, world\n", 1)
}

/// Three discs take seven moves.
#[test]
fn towers(rt: HostRuntime) -> Result<(), Fail> {
    puts(
        &rt,
        rt.alloc(),
        HANOI,
        "hanoi(3, 65, 66, 67);",
        "AB AC BC AB CA CB AB ",
        15,
    )
}

#[test]
fn input_in_capitals(rt: HostRuntime) -> Result<(), Fail> {
    let main = "for (;;) { x = getchar(); if (x < 0) { break; } putchar(x - 32); }";
    puts(&rt, rt.alloc(), "", main, "HI", 0)
}

/// Greatest common divisor of 1071 and 462.
#[test]
fn euclid(rt: HostRuntime) -> Result<(), Fail> {
    let main =
        "x = 1071; y = 462; for (;;) { if (y == 0) { break; } *(int *)(a) = x % y; x = y; y = *(int *)(a); } number(x);";
    puts(&rt, rt.alloc(), "", main, "21 ", 3)
}

/// The FNV-1a hash of `a` in 32 bits is 3826002220.
#[test]
fn an_unsigned_hash(rt: HostRuntime) -> Result<(), Fail> {
    let main = "if (((2166136261u ^ 97u) * 16777619u) == 3826002220u) { putchar(121); }";
    puts(&rt, rt.alloc(), "", main, "y", 0)
}
