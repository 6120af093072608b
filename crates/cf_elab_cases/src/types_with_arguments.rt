/// A type with arguments (5.2.3). Files with the rule that each breaks, at the `$`; 0 where a file breaks none.
pub const TYPES_WITH_ARGUMENTS: [(&str, u8); 8] = [
    ("int main(){return $int(1,2);}", 15),
    ("typedef int T;int main(){return $T(1,2);}", 15),
    ("int*p;int main(){return $int(p);}", 17),
    ("typedef int*P;int main(){return $P(1)==0;}", 17),
    ("typedef int*P;int main(){return P()==0;}", 0),
    ("enum E{A};int main(){return $E(1,2);}", 15),
    ("int main(){return int(1,$x);}", 10),
    ("struct A;int main(){($A(1),0);return 0;}", 30),
];
