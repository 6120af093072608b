/// Parameters, types in brackets, and specifiers that conflict (7.1, 8.1, 8.2.5). Files with the rule that each breaks, at the `$`; 0 where a file breaks
/// none.
pub const DECLARATIONS: [(&str, u8); 19] = [
    ("int f(void);int main(){return f();}", 0),
    ("typedef void V;int f(V);int main(){return f();}", 0),
    ("int f($const void);", 26),
    ("typedef const void C;int f($C);", 26),
    ("int f($register void);", 26),
    ("int f($auto void);", 26),
    ("int f(void $x);", 26),
    ("int f(int,$void);", 26),
    ("int f(register int x);", 0),
    ("int f($inline int char x);", 24),
    ("int f($inline static int x);", 24),
    ("int f($virtual inline int x);", 24),
    ("int f(int $char inline x);", 24),
    ("int f(register $static int x);", 24),
    ("int main(){return sizeof($static int char);}", 24),
    ("int main(){return sizeof($inline register int);}", 24),
    ("int main(){return sizeof(int $char inline);}", 24),
    ("int $struct B*x;", 24),
    ("enum E{A};int $enum E x;", 24),
];
