/// `sizeof` (5.3.2). Files with the rule that each breaks, at the `$`; 0 where a file breaks none.
pub const SIZES: [(&str, u8); 8] = [
    ("void f();int main(){return $sizeof f;}", 18),
    ("typedef int F();int main(){return $sizeof(F);}", 18),
    ("int main(){return $sizeof(void);}", 18),
    ("void f();int main(){return $sizeof f();}", 18),
    ("struct A;int main(){return $sizeof(A);}", 30),
    ("struct A;A*p;int main(){return $sizeof *p;}", 30),
    ("struct A;int main(){return sizeof(A*);}", 0),
    ("int main(){return sizeof $x;}", 10),
];
