/// Names and `this` (3.2, 3.4, 5.1). Files with the rule that each breaks, at the `$`; 0 where a file breaks none.
pub const NAMES: [(&str, u8); 16] = [
    ("int main(){return $x;}", 10),
    ("int main(){$x=1;}", 10),
    ("int main(){int x=1;return ::$x;}", 10),
    ("int main(){return $f(1);}", 10),
    ("int f(int);int main(){return f($g);}", 10),
    ("int main(){return $x+y;}", 10),
    ("int x;int main(){return x($y);}", 10),
    ("int main(){return $main();}", 11),
    ("int main(){int(*p)();p=&$main;return 0;}", 11),
    ("int main(){return $main(x);}", 11),
    ("int main(){return $x(main());}", 10),
    ("void f(int);void f(long);int main(){return $f==0;}", 46),
    ("void f(int);void f(long);int main(){return f==$x;}", 10),
    (
        "void f(int);void f(long);void g(int);void g(long);int main(){return $f==g;}",
        46,
    ),
    ("enum E{A};int main(){int x=A;return x;}", 0),
    ("int main(){return $this!=0;}", 32),
];
