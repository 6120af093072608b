//! Expressions (5), among the declarations of `BEFORE`; calls in whole files.

/// What stands before each of these rows.
pub const BEFORE: &str =
    "enum E{A,B};enum F{C};typedef int T;typedef int*P;int x,z;char ch;unsigned u;const int c=1,zero=0;E e;F h;int*p;\
const int*cp;char*q;void*v;const void*cv;int a[2];int m[2][2];int f(){return 0;}void g(){}int k(int i){return i;}int(*fp)()=f;\
int*const kp=0;int&r=x;int main(){";

/// And behind.
pub const BEHIND: &str = "return 0;}";

/// Assignments (5.17): what may not be changed, then the operator, then what is not converted.
pub const ASSIGNMENTS: [(&str, u8); 25] = [
    ("1$=x;", 12),
    ("a$=a;", 12),
    ("*cp$=1;", 12),
    ("(x?ch:x)$=1;", 12),
    ("p$=cp;", 13),
    ("x$=g();", 13),
    ("fp$=k;", 13),
    ("e$=0;", 25),
    ("e$=p;", 13),
    ("1$+=x;", 12),
    ("p$+=p;", 18),
    ("v$-=p;", 18),
    ("x$+=p;", 13),
    ("p$-=p;", 13),
    ("e$+=1;", 25),
    ("e$+=v;", 18),
    ("e$+=p;", 13),
    ("kp$=v;", 12),
    ("A$=0;", 12),
    ("kp$+=p;", 12),
    ("c$+=p;", 12),
    ("A$+=1;", 12),
    ("p=0;p=1-1;p=zero;p=0!=0;", 0),
    ("v=p;v=q;v=a;v=0;v=&p;", 0),
    ("e=A;e=e;e=(E)1;", 0),
];

/// Unary operators, `++` and `--`, `[]`, `sizeof` (5.2, 5.3), and binary operators (5.6 to 5.15).
pub const OPERATORS: [(&str, u8); 31] = [
    ("$*v;", 18),
    ("$-p;", 18),
    ("$!g();", 18),
    ("$&x++;", 12),
    ("&$main;", 11),
    ("$++1;", 12),
    ("v$++;", 18),
    ("e$--;", 18),
    ("g()$++;", 12),
    ("x$[0];", 18),
    ("0$[v];", 18),
    ("x[$y];", 10),
    ("$sizeof(int());", 18),
    ("sizeof $main;", 11),
    ("sizeof(int$[x]);", 19),
    ("sizeof(int& $*);", 26),
    ("p$+p;", 18),
    ("1$-p;", 18),
    ("p$-q;", 18),
    ("p$==1;", 18),
    ("p$<0;", 18),
    ("fp$<fp;", 18),
    ("v$+1;", 18),
    ("fp$==v;", 18),
    ("g()$&&1;", 13),
    ("x$||(p,g());", 13),
    ("\"a\"$+(\"b\");", 18),
    (
        "*&*p;-A;~A;+p;+v;!p;!f;!A;*\"a\";(*f)();(*fp)();&f;&a;&r;&*kp;&c;&++x;&(x=1);*a;**m;-'a';~u;+x;!0;",
        0,
    ),
    ("p+1;1+p;p-1;p-p;p-a;a-p;a+1;", 0),
    ("v==p;p!=v;v==cp;cp!=v;cv==p;", 0),
    ("fp==0;0!=fp;f==0;0!=f;", 0),
];

/// `?:` (5.16) and casts (5.4, 5.2.3).
pub const CHOICES: [(&str, u8); 20] = [
    ("g()$?g():g();", 13),
    ("x$?p:1;", 18),
    ("x$?g():1;", 18),
    ("g()$?p:1;", 13),
    ("g()?$y:1;", 10),
    ("E e2$=x?A:B;", 25),
    ("p$=x?cp:0;", 13),
    ("$(int*)1;", 17),
    ("$(int)p;", 17),
    ("$(E)p;", 17),
    ("$(const int&)1;", 17),
    ("$(char&)x;", 17),
    ("(int*)$y;", 10),
    ("(int$[0])1;", 26),
    ("$int(1,p);", 15),
    ("x=$T(p);", 17),
    ("x=int(1,$y);", 10),
    ("e$=int(A);", 25),
    (
        "x?1:2;x?p:0;x?0:p;x?p:v;x?cp:p;x?g():g();x?f:0;x?f:f;x?A:1;x?A:C;x?a:p;x?a:a;p?1:2;f?1:2;e?1:2;x?e:e;x?'a':u;e=x?e:e;x?cp:cv;x?1-1:p;",
        0,
    ),
    (
        "(int*)0;(int*)(1-1);(int*)A;(void*)0;(void*)p;(int*)v;(const int*)p;(int*)cp;(E)1;(E)ch;(F)A;(int)A;(char)x;(void)p;(void)g();(int&)x;(const int&)x;(int&)c;(int(*)())f;(int(*)())0;(P)0;(T)'a';(int*)a;(void*)cp;(int*)kp;(unsigned)-1;(int*)cv;",
        0,
    ),
];

/// Calls (5.2.2), in whole files: what is called, how many arguments it takes, then whether each matches.
pub const CALLS: [(&str, u8); 19] = [
    ("int x;int main(){return $x(1);}", 18),
    ("int x;int main(){return x($y);}", 10),
    ("int main(){return $h(y);}", 10),
    ("int main(){return $main(y);}", 11),
    ("int main(){return $main(1);}", 11),
    ("int f(int a){return a;}int main(){return $f();}", 15),
    (
        "int f(int a){return a;}int(*p)(int)=f;int main(){return $p();}",
        15,
    ),
    (
        "int*p;int f(int a,int b){return a;}int main(){return $f(p);}",
        15,
    ),
    ("int f(int a){return a;}int*p;int main(){return $f(p);}", 46),
    (
        "int f(int*p){return 0;}const int c=1;int main(){return $f(&c);}",
        46,
    ),
    (
        "enum E{A};int f(E e){return e;}int main(){return $f(0);}",
        46,
    ),
    (
        "int f(int&a){return a;}char ch;int main(){return $f(ch);}",
        46,
    ),
    (
        "int f(const int&a){return a;}int*p;int main(){return $f(p);}",
        46,
    ),
    (
        "int f(int(*h)(int)){return h(1);}int g(){return 1;}int main(){return $f(g);}",
        46,
    ),
    (
        "int f(int*p,int a){return a;}int main(){return $f(1,0);}",
        46,
    ),
    ("int f(){int f=1;return $f();}", 18),
    (
        "int f(){return 1;}int(*p)()=f;int(&r)()=f;int main(){return p()+r()+(*p)()+(*f)();}",
        0,
    ),
    (
        "int f(int&a){return a;}int x;int b[2];int main(){return f(x)+f(b[1])+f(x=2);}",
        0,
    ),
    (
        "int g(int(*h)()){return h();}int f(){return 1;}int main(){return g(f)+g(&f)+g(0);}",
        0,
    ),
];
