/// `new` and `delete` (5.3.3, 5.3.4). Files with the rule that each breaks, at the `$`; 0 where a file breaks none.
pub const ALLOCATIONS: [(&str, u8); 14] = [
    ("struct A;int main(){$new A;return 0;}", 30),
    ("int*p;int main(){$new int[p];return 0;}", 13),
    ("int main(){int n=2;new int[n];return 0;}", 0),
    ("int main(){$new int[2](1);return 0;}", 28),
    ("typedef int A[2];int main(){$new A(1);return 0;}", 28),
    ("int*p;int main(){$new int[p](1);return 0;}", 13),
    ("struct A;int*p;int main(){$new A[p];return 0;}", 30),
    ("int main(){$new int(1,2);return 0;}", 28),
    ("int*p;int main(){$new int(p);return 0;}", 13),
    ("enum E{A};int main(){$new E(1);return 0;}", 25),
    ("int x;int main(){$delete x;return 0;}", 18),
    ("void*v;int main(){$delete v;return 0;}", 18),
    ("int(*f)();int main(){$delete f;return 0;}", 18),
    ("struct A;A*p;int main(){$delete p;return 0;}", 30),
];
