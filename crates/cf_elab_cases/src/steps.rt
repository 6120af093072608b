/// `++` and `--` (5.2.5, 5.3.1). Files with the rule that each breaks, at the `$`; 0 where a file breaks none.
pub const STEPS: [(&str, u8); 13] = [
    ("int main(){$++1;return 0;}", 12),
    ("const int c=1;int main(){c$++;return 0;}", 12),
    ("int a[2];int main(){a$++;return 0;}", 12),
    ("enum E{A};E e;int main(){e$++;return 0;}", 18),
    ("void*v;int main(){v$++;return 0;}", 18),
    ("int(*p)();int main(){$--p;return 0;}", 18),
    ("int f();int main(){f$++;return 0;}", 12),
    ("enum E{A};int main(){A$++;return 0;}", 12),
    ("enum E{A};const E e=A;int main(){$++e;return 0;}", 12),
    ("void*const v=0;int main(){v$++;return 0;}", 12),
    ("int x;int main(){x++$++;return 0;}", 12),
    ("int x;int main(){++ ++x;return 0;}", 0),
    ("int x;int main(){$++x++;return 0;}", 12),
];
