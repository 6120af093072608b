//! Statements (6), among the declarations of `expressions`.

/// Conditions, `switch`, `break` and `continue` (6), and orders of two rules of a `switch`.
pub const STATEMENTS: [(&str, u8); 26] = [
    ("$do;while(g());", 13),
    ("if(g())$y;", 10),
    ("do $y;while(g());", 10),
    ("for(;g();$y);", 10),
    ("for(int i=0;g();)$y;", 10),
    ("if(g())$break;", 21),
    ("$switch(p){}", 13),
    ("switch(p){$y;}", 10),
    ("switch(x){$case x:;}", 19),
    ("switch(x){case 1:case 2:$case 3-2:;}", 20),
    ("switch(x){default:$default:;}", 20),
    ("switch(u){case 4294967295u:$case -1:;}", 20),
    ("switch(x){$continue;}", 21),
    ("do;while(1);$continue;", 21),
    ("switch(x){case 0:int w=1;$default:;}", 23),
    ("switch(x){int w,y=1;$case 1:;}", 23),
    ("$switch(p){case 1:case 1:;}", 13),
    ("$switch(p){case x:;}", 13),
    ("$switch(g()){int w=1;case 1:;}", 13),
    ("switch(p){case $y:;}", 10),
    ("switch(x){case 1:case 1:$case x:;}", 19),
    ("switch(x){int w=1;$case x:;}", 19),
    ("switch(x){int w=1;case 1:$case 1:;}", 20),
    ("switch(x){case 1:$continue;case 1:;}", 21),
    ("switch(x){case 0:int w;case 1:w=1;}", 0),
    ("switch(x){case 0:static int w=1;case 1:;}", 0),
];

/// `return` (6.6.3), in whole files.
pub const RETURNS: [(&str, u8); 9] = [
    ("int h(){$return;}", 22),
    ("void h(){return $y;}", 10),
    ("int*p;void h(){$return p;}", 22),
    ("int*p;int h(){$return p;}", 13),
    ("enum E{A};E h(){$return 0;}", 25),
    ("int*p;int&h(){$return p;}", 29),
    ("int*p;const int&h(){$return p;}", 13),
    ("enum E{A};const E&h(){$return 1;}", 25),
    ("int main(){return;}", 0),
];
