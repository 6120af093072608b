//! Objects and references (3.1, 7.1.6, 8.4).

/// Initialisers that are missing, that do not fit, or that may not stand.
pub const INITIALISERS: [(&str, u8); 15] = [
    ("const int $c;", 28),
    ("int main(){static const int $c;return 0;}", 28),
    ("typedef int T$=1;", 28),
    ("int main(){extern int x$=1;return 0;}int x;", 28),
    ("int x=${1};", 28),
    ("const int c=1;int*p$=&c;", 13),
    ("int f(int a){return a;}int(*p)()$=f;", 13),
    ("enum E{A};E e$=0;", 25),
    ("enum E{A};int*p;int main(){E e$=p;return 0;}", 13),
    ("typedef int T=$x;", 10),
    ("int f()$=1;int main(){return 0;}", 28),
    ("int main(){extern int x=$y;return 0;}", 10),
    ("int main(){extern int x$=1;return 0;}", 28),
    ("const int a=1;int n;int x$=1?a:n;", 48),
    (
        "int main(){static int x;static int y=1;static int*p=&y;static int a[]={1,2};return x;}",
        0,
    ),
];

/// References: without an initialiser, bound to what is no place, then what does not fit.
pub const REFERENCES: [(&str, u8); 11] = [
    ("int&$r;", 28),
    ("int&r$=1;", 29),
    ("const int c=1;int&r$=c;", 29),
    ("char ch;int&r$=ch;", 29),
    ("int*p;const int*&r$=p;", 29),
    ("int*p;int&r$=p;", 29),
    ("enum E{A};E&r$=1;", 29),
    ("int a[3];int(&r)[2]$=a;", 29),
    ("int*p;const int&r$=p;", 13),
    ("enum E{A};const E&r$=1;", 25),
    ("int main(){int&r=$y;return 0;}", 10),
];

/// Lists and strings.
pub const LISTS: [(&str, u8); 19] = [
    ("int a[2]=${1,2,3};", 28),
    ("int a[2][2]={${1,2,3},{1}};", 28),
    ("int a[2]={1,${1}};", 28),
    ("char s[2]$=\"ab\";", 28),
    ("char s[2][1]={\"\",$\"a\"};", 28),
    ("int a[2]$=1;", 28),
    ("int*a[2]={0,$1};", 13),
    ("enum E{A};E a[2]={A,$0};", 25),
    ("int a[1]={1,$y};", 10),
    ("int*p;int main(){int a[1]=${p,p};return 0;}", 28),
    ("int*p;int main(){int a[2]={$p,{1}};return 0;}", 13),
    ("int*p;int main(){int a[2]={${1},p};return 0;}", 28),
    ("enum{a};int $a[]={x};", 8),
    ("extern int a[1];static int $a[]={x};", 9),
    ("int a[]$(1,2);", 28),
    ("char s[]$(\"ab\");", 28),
    ("extern int a[3];int $a[]={x,2};", 8),
    ("int a[2][2]={1,2,3};int b[3][2]={{1,2},3,4};", 0),
    (
        "char s[]={\"ab\"};char t[2][2]={\"a\",\"b\"};char u[]={'a',0};char v[2][3]={{\"ab\"},\"c\"};",
        0,
    ),
];
