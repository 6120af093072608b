//! Nesting and brackets.

/// A text with a piece and another so many times in it.
#[derive(Clone, Copy)]
pub struct Repeated {
    pub before: &'static str,
    pub piece: &'static str,
    pub middle: &'static str,
    pub last: &'static str,
    pub behind: &'static str,
    /// How many times at most, where there is a limit.
    pub most: usize,
}

/// Files whose nesting is 256, or one time more passes it.
pub const AT_LIMIT: [Repeated; 5] = [
    Repeated {
        before: "int main(){return ",
        piece: "(",
        middle: "7",
        last: ")",
        behind: ";}",
        most: 250,
    },
    Repeated {
        before: "int main()",
        piece: "{",
        middle: ";",
        last: "}",
        behind: "",
        most: 253,
    },
    Repeated {
        before: "int main(){return ",
        piece: "1+",
        middle: "1",
        last: "",
        behind: ";}",
        most: 125,
    },
    Repeated {
        before: "int main(){",
        piece: "if(1);else ",
        middle: ";",
        last: "",
        behind: "}",
        most: 63,
    },
    Repeated {
        before: "int x",
        piece: "[1",
        middle: "",
        last: "]",
        behind: ";",
        most: 127,
    },
];

/// Files whose trees are deeper than their nesting.
pub const UNLIMITED: [Repeated; 2] = [
    Repeated {
        before: "f(){",
        piece: "if(a)b,c;else ",
        middle: ";",
        last: "",
        behind: "}",
        most: 200,
    },
    Repeated {
        before: "f(){x=",
        piece: "a?b,",
        middle: "a?b:c",
        last: ",d:c",
        behind: ";}",
        most: 200,
    },
];

/// Braces without partners that are nested too deep.
pub const BRACES: Repeated = Repeated {
    before: "",
    piece: "{\n",
    middle: "",
    last: "",
    behind: "",
    most: 2000,
};

/// The first bracket without a partner, marked by `$`.
pub const BRACKETS: [&str; 10] = [
    "int main()${return 7",
    "int x y;${",
    "int x;$)",
    "int a$(];",
    "int a[$);];",
    "${(})",
    "int f$(int a[){}",
    "x y;$]",
    "int main(){return 7;}$}",
    "struct A${int f(){int x;};",
];
