/// Member access (5.2.4). Files with the rule that each breaks, at the `$`; 0 where a file breaks none.
pub const MEMBERS: [(&str, u8); 13] = [
    ("int x;int main(){return x$.y;}", 18),
    ("int x;int main(){return x$->y;}", 18),
    ("int*p;int main(){return p$->y;}", 18),
    ("int main(){return $z.y;}", 10),
    ("struct A;A*p;int main(){return p$->x;}", 30),
    ("struct A{int x;};A a;int main(){return a.$y;}", 16),
    (
        "struct A{int x;};struct B{int x;};struct C:A,B{};C c;int main(){return c.$x;}",
        34,
    ),
    (
        "struct A{int x;};class B{int x;};struct C:A,B{};C c;int main(){return c.$x;}",
        34,
    ),
    ("class A{int x;};A a;int main(){return a.$x;}", 38),
    ("class A{protected:int x;};A a;int main(){return a.$x;}", 38),
    (
        "class A{protected:int x;};class D:public A{int g(A*p){return p->$x;}};",
        39,
    ),
    (
        "class A{protected:int x;};class D:public A{int g(D*p){return p->x;}};",
        0,
    ),
    ("struct A{};A a;int main(){a.$~A();return 0;}", 48),
];
