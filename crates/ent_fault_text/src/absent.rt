//! Words of SQL that this language hasn't.
use crate::mark::has_word;
use std::alloc::{AllocError, Global};

/// Words, with a space between each two, and what is written in their place.
#[derive(Clone, Copy)]
struct Absent {
    words: &'static str,
    instead: &'static str,
    /// Whether they begin a part of a statement. Where one was read as a name, the fault stands at the token behind it.
    is_part: bool,
}

/// A word that stands for a value, a kind or a rule may be the name of a column too, so it counts only where the fault
/// stands at it. So do the words of branches: IF is read as a name behind CREATE TABLE.
static ABSENT: [Absent; 18] = [
    Absent {
        words: "IF THEN ELSE ELSEIF ELSIF WHILE LOOP",
        instead: "write the test into the WHERE of each statement, or a script for each case",
        is_part: false,
    },
    Absent {
        words: "OR NOT XOR",
        instead: "write several scripts, or a table that lists what is allowed",
        is_part: true,
    },
    Absent {
        words: "JOIN ON INNER LEFT RIGHT FULL OUTER CROSS NATURAL USING",
        instead: "name several sources in FROM, and write tests",
        is_part: true,
    },
    Absent {
        words: "DISTINCT",
        instead: "a result is a set already",
        is_part: true,
    },
    Absent {
        words: "GROUP ORDER BY HAVING LIMIT OFFSET ASC DESC",
        instead: "who reads the report counts and sorts",
        is_part: true,
    },
    Absent {
        words: "COUNT SUM AVG MIN MAX",
        instead: "who reads the report counts and sorts",
        is_part: true,
    },
    Absent {
        words: "UNION INTERSECT EXCEPT EXISTS WITH CASE WHEN",
        instead: "write several statements",
        is_part: true,
    },
    Absent {
        words: "BETWEEN",
        instead: "write two tests, with >= and <=",
        is_part: true,
    },
    Absent {
        words: "LIKE IS",
        instead: "write tests with = <> < <= > or >=",
        is_part: true,
    },
    Absent {
        words: "DROP ALTER TRUNCATE",
        instead: "tables are declared once, at the beginning",
        is_part: true,
    },
    Absent {
        words: "IF REPLACE IGNORE",
        instead: "a table is declared once, and a row is put in once",
        is_part: true,
    },
    Absent {
        words: "SAVEPOINT START RELEASE",
        instead: "a script is BEGIN TRANSACTION; .. and COMMIT; or ROLLBACK;",
        is_part: true,
    },
    Absent {
        words: "NULL",
        instead: "choose a value that stands for it, as '' or -1",
        is_part: false,
    },
    Absent {
        words: "INTEGER BIGINT SMALLINT TINYINT SERIAL NUMBER NUMERIC DECIMAL FLOAT REAL DOUBLE",
        instead: "write INT",
        is_part: false,
    },
    Absent {
        words: "VARCHAR CHAR CHARACTER NVARCHAR STRING CLOB",
        instead: "write TEXT",
        is_part: false,
    },
    Absent {
        words: "DATE TIME DATETIME TIMESTAMP",
        instead: "write INT for a day or a time",
        is_part: false,
    },
    Absent {
        words: "BOOLEAN BOOL TRUE FALSE",
        instead: "write INT, with 0 and 1",
        is_part: false,
    },
    Absent {
        words: "PRIMARY KEY UNIQUE FOREIGN REFERENCES CHECK DEFAULT CONSTRAINT",
        instead: "a row stands in a table once, and no other rule is kept",
        is_part: false,
    },
];

/// The hint that a word isn't in the language, where it is one that SQL has: any of these where the fault stands at the
/// word, one that begins a part where it stands behind it.
pub(crate) fn absent_word(
    alloc: Global,
    word: &str,
    is_behind: bool,
) -> Result<Option<String>, AllocError> {
    for absent in &ABSENT {
        if (absent.is_part || !is_behind) && has_word(absent.words, word) {
            let instead = absent.instead;
            return Ok(Some(format!(in alloc; "{word} isn't in this language: {instead}")?));
        }
    }
    Ok(None)
}
