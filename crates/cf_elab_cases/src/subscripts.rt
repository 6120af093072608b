/// Subscripts (5.2.1). Files with the rule that each breaks, at the `$`; 0 where a file breaks none.
pub const SUBSCRIPTS: [(&str, u8); 7] = [
    ("int x;int main(){return x$[1];}", 18),
    ("int*p;int main(){return p$[p];}", 18),
    ("void*v;int main(){v$[1];return 0;}", 18),
    ("int f();int main(){f$[1];return 0;}", 18),
    ("int x;int main(){return x[$y];}", 10),
    ("int*p;int main(){return 1[p];}", 0),
    ("enum E{A};int*p;int main(){return p[A];}", 0),
];
