//! Hints that are always the same, and what stands around the place where each of them fits.
use crate::expected::Expected;
use crate::scene::Scene;
use crate::whole::Whole;

/// A hint, and the tokens that it fits ([`crate::mark::Mark::is_of`]). An empty text fits all.
#[derive(Clone, Copy)]
pub(crate) struct Hint {
    /// The first token of the statement, the one before the place, the one at it, and the one behind that. `<start>` at
    /// the place is a token that begins a statement, a script's end, a script or a declaration.
    around: [&'static str; 4],
    /// What can stand at the place.
    expected: &'static str,
    says: &'static str,
}

/// Where NOT NULL stands behind a column's kind.
pub(crate) static NOT_NULL: [Hint; 1] = [Hint {
    around: ["CREATE", "", "NOT", "NULL"],
    expected: "",
    says: "NULL isn't in this language: each row has a value in each column, so leave NOT NULL out",
}];

/// Where a token can't stand in an INSERT or in a SET, or is a number or a part of one.
static IN_STATEMENTS: [Hint; 8] = [
    Hint {
        around: ["INSERT", ")", ",", ""],
        expected: "",
        says: "an INSERT puts one row in: write one for each row",
    },
    Hint {
        around: ["INSERT", "<name>", "(", ""],
        expected: "",
        says: "an INSERT names no columns: it has a value for each, in their order",
    },
    Hint {
        around: ["INSERT", "", "SELECT", ""],
        expected: "",
        says: "an INSERT takes no SELECT: it has a value for each column",
    },
    Hint {
        around: ["SET", "", "SELECT", ""],
        expected: "",
        says: "SET takes no SELECT: AS in an entangled statement gives a host variable a value of a table",
    },
    Hint {
        around: ["SET", "", "(", "SELECT"],
        expected: "",
        says: "SET takes no SELECT: AS in an entangled statement gives a host variable a value of a table",
    },
    Hint {
        around: ["", "<number>", ".", ""],
        expected: "",
        says: "numbers are whole: count in a smaller unit, as cents",
    },
    Hint {
        around: ["", "", ".", "<number>"],
        expected: "",
        says: "numbers are whole: count in a smaller unit, as cents",
    },
    Hint {
        around: ["", "CHOOSE", "<number>", ""],
        expected: "",
        says: "an entangled statement asks for one answer: CHOOSE 1",
    },
];

/// Where one script stands alone, and something in it or behind it that an input has.
static IN_ONE_SCRIPT: [Hint; 2] = [
    Hint {
        around: ["", "", "", ""],
        expected: "the end of the script",
        says: "each script is submitted by itself",
    },
    Hint {
        around: ["", "", "CREATE", ""],
        expected: "",
        says: "a script declares no tables: they were declared before",
    },
];

/// Where something stands in the wrong part of the input or of a statement, a `;` is missing, or a word is reserved.
static ANYWHERE: [Hint; 14] = [
    Hint {
        around: ["", "", "CREATE", ""],
        expected: "INSERT",
        says: "tables are declared at the beginning, before all rows and scripts",
    },
    Hint {
        around: ["", "", "CREATE", ""],
        expected: "BEGIN",
        says: "tables are declared at the beginning, before all rows and scripts",
    },
    Hint {
        around: ["", "", "<start>", ""],
        expected: "BEGIN",
        says: "a statement stands in a script: BEGIN TRANSACTION; .. COMMIT;",
    },
    Hint {
        around: ["", "", "BEGIN", ""],
        expected: "COMMIT",
        says: "the script before isn't ended by COMMIT; or ROLLBACK;",
    },
    Hint {
        around: ["", "", "<start>", ""],
        expected: ";",
        says: "what stands before ends with ;",
    },
    Hint {
        around: ["", "", ";", ""],
        expected: "CHOOSE",
        says: "an entangled statement ends with CHOOSE 1",
    },
    Hint {
        around: [
            "",
            "",
            "ANSWER BEGIN CHOOSE COMMIT INT RUNS TABLE TEXT TRANSACTION VALUES WITHIN",
            "",
        ],
        expected: "a name",
        says: "this word is reserved, and can't be a name",
    },
    Hint {
        around: ["", "(", "<number> <text> <variable> -", ""],
        expected: "SELECT",
        says: "IN takes no list of values: put them into a table T, and write IN (SELECT .. FROM T)",
    },
    Hint {
        around: ["", "", "IN", ""],
        expected: "",
        says: "IN stands in entangled statements alone, outside their sub-selects",
    },
    Hint {
        around: ["", "", "<variable>", ""],
        expected: "ANSWER",
        says: "SET gives a host variable a value, and so does AS in an entangled statement",
    },
    Hint {
        around: ["", "", "=", ""],
        expected: "a value",
        says: "equal is one =",
    },
    Hint {
        around: ["", "", "*", ""],
        expected: "",
        says: "numbers are added and subtracted alone",
    },
    Hint {
        around: ["", "", "+ -", ""],
        expected: "",
        says: "a sum has two terms, and stands in UPDATE and SET alone",
    },
    Hint {
        around: ["", "", ";", ""],
        expected: "TRANSACTION",
        says: "a script begins with BEGIN TRANSACTION;",
    },
];

/// Where AS can't stand in a SELECT that isn't entangled, or what stands behind it.
pub(crate) static IN_NAMINGS: [Hint; 3] = [
    Hint {
        around: ["", "AS", "<name>", ""],
        expected: "a host variable",
        says: "the items of an ordinary SELECT have no names: leave AS out",
    },
    Hint {
        around: ["", "", "AS", ""],
        expected: "FROM",
        says: "the items of an ordinary SELECT have no names: leave AS out",
    },
    Hint {
        around: ["SELECT", "", "FROM", ""],
        expected: "INTO",
        says: "AS gives a host variable a value only in an entangled statement, with INTO ANSWER",
    },
];

impl Hint {
    /// Whether it fits what stands around the place. The token there may begin a statement.
    fn fits(&self, scene: &Scene<'_>, expected: &Expected, is_start: bool) -> bool {
        let [first, before, found, next] = self.around;
        (first.is_empty() || scene.begins_with(first))
            && (before.is_empty() || scene.is_at(-1, before))
            && (found.is_empty() || is_start && found == "<start>" || scene.is_at(0, found))
            && (next.is_empty() || scene.is_at(1, next))
            && (self.expected.is_empty() || expected.has(self.expected))
    }
}

/// The first of some hints that fits.
pub(crate) fn hint_among(
    hints: &[Hint],
    scene: &Scene<'_>,
    expected: &Expected,
    is_start: bool,
) -> Option<&'static str> {
    for hint in hints {
        if hint.fits(scene, expected, is_start) {
            return Some(hint.says);
        }
    }
    None
}

/// The first hint that fits where a token can't stand. The token may begin a statement.
pub(crate) fn fixed_hint(
    scene: &Scene<'_>,
    expected: &Expected,
    is_start: bool,
) -> Option<&'static str> {
    let in_statement = hint_among(&IN_STATEMENTS, scene, expected, is_start);
    if in_statement.is_some() {
        return in_statement;
    }
    if matches!(scene.whole, Whole::Script) {
        let in_script = hint_among(&IN_ONE_SCRIPT, scene, expected, is_start);
        if in_script.is_some() {
            return in_script;
        }
    }
    hint_among(&ANYWHERE, scene, expected, is_start)
}
