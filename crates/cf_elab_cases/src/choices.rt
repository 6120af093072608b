/// Conditional expressions and commas (5.16, 5.18). Files with the rule that each breaks, at the `$`; 0 where a file breaks none.
pub const CHOICES: [(&str, u8); 13] = [
    ("void f();int main(){return f()$?1:2;}", 13),
    ("int*p;int main(){1$?p:1;return 0;}", 18),
    ("int*p;int main(){1?p:0;return 0;}", 0),
    ("int*p;char*q;int main(){1$?p:q;return 0;}", 18),
    ("int*p;void*v;int main(){1?p:v;return 0;}", 0),
    ("void f();int main(){1$?f():1;return 0;}", 18),
    ("void f();int main(){1?f():f();return 0;}", 0),
    ("void f();int*p;int main(){f()$?p:1;return 0;}", 13),
    ("void f();int main(){f()?1:$x;return 0;}", 10),
    ("int x;int y;int main(){(1?x:y)=1;return 0;}", 0),
    ("int x;long y;int main(){(1?x:y)$=1;return 0;}", 12),
    ("int main(){return 1,2,$x;}", 10),
    ("int x;int main(){(1,x)=2;return 0;}", 0),
];
