// What users see beside a refusal's line.

use crate::advice::{advice, advice_further};
use crate::explain::explanation;
use crate::message::{Message, STYLES, Style};
use crate::place::at_column;
use crate::topic::{ERRORS, REFUSALS};
use pli_language::expr::Place;
use pli_language::fault::{SourceFault, SourceKind};
use std::test::Fail;

const SOURCE: &str = "T: PROC OPTIONS(MAIN);\n\tPUT LIST (\u{e9});\nEND;\n";

fn told(rt: &HostRuntime, style: Style, kind: SourceKind) -> Result<String, Fail> {
    let message = Message {
        style,
        file: "t.pli",
        source: SOURCE.as_bytes(),
        fault: SourceFault {
            line: 2,
            column: 6,
            kind,
        },
        unread: None,
    };
    Ok(message.to_string(rt.alloc())?)
}

#[test]
fn refusals_are_told_in_each_style(rt: HostRuntime) -> Result<(), Fail> {
    let short = told(&rt, Style::Short, SourceKind::LeftOut)?;
    assert_eq!(rt; short.as_str(), "2:6: 11 LeftOut");
    let gcc = told(&rt, Style::Gcc, SourceKind::LeftOut)?;
    assert_eq!(rt; gcc.as_str(), "t.pli:2:6: error: 11 LeftOut");
    let memory = told(&rt, Style::Long, SourceKind::Memory)?;
    assert_eq!(rt; memory.as_str(), "MEMORY");
    let long = told(&rt, Style::Long, SourceKind::LeftOut)?;
    assert_eq!(rt;
        long.as_str(),
        "2:6: 11 LeftOut\n PUT LIST (??);\n     ^\n\
        Usual cause: a form of PL/I that this language leaves out.\n\
        What to do: see Porting in GUIDE.\nInstead: EDIT with a format: EDIT (X) (F(6))."
    );
    Ok(())
}

#[test]
fn ordinary_forms_have_other_words(rt: HostRuntime) -> Result<(), Fail> {
    for (kind, rest, wanted) in [
        (
            SourceKind::Syntax,
            "put page;",
            Some("PUT SKIP; the output has lines, and no pages"),
        ),
        (SourceKind::Syntax, "PUT SKIP; PUT PAGE;", None),
        (SourceKind::Syntax, "PUT 'PAGE' SKIP", None),
        (SourceKind::LeftOut, "** 2;", Some("a loop that multiplies")),
        (
            SourceKind::BadByte,
            "\"A\"",
            Some("texts stand in single quotes: 'TEXT'"),
        ),
        (SourceKind::BadByte, "", None),
        (
            SourceKind::BadByte,
            "~= Y",
            Some("^ for not, ^= for not equal, || to join texts"),
        ),
        (
            SourceKind::Syntax,
            "PUT FILE(SYSPRINT) LIST (X);",
            Some("EDIT with a format: PUT SKIP EDIT (X) (F(6))"),
        ),
        (
            SourceKind::Syntax,
            "(NOSIZE): X = 1;",
            Some("nothing: conditions have no prefix, and are always raised"),
        ),
        (
            SourceKind::LeftOut,
            "'101'B;",
            Some("'0'B or '1'B; an array of BIT(1) for more bits"),
        ),
        (
            SourceKind::Undeclared,
            "SUM(A);",
            Some("a DO loop that adds"),
        ),
        (SourceKind::Undeclared, "SUM = SUM + 1;", None),
        (SourceKind::TypeMismatch, "LIST", None),
    ] {
        assert_eq!(rt; advice(kind, 1, rest.as_bytes()), wanted, "{rest}");
    }
    let numbered = advice(SourceKind::Syntax, 73, b"00010000");
    assert!(rt; numbered.is_some());
    Ok(())
}

#[test]
fn topics_are_called_by_number_and_name(rt: HostRuntime) -> Result<(), Fail> {
    let called = |word: &str| REFUSALS
        .iter()
        .filter(|topic| topic.is_called(word))
        .count();
    for (word, count) in [
        ("11", 1),
        ("leftout", 1),
        ("LeftOut", 1),
        ("0", 0),
        ("", 0),
        ("LEFT", 0),
    ] {
        assert_eq!(rt; called(word), count, "{word}");
    }
    assert!(rt;
        ERRORS
            .iter()
            .any(|topic| topic.is_called("area") && topic.number == 10)
    );
    assert!(rt; !ERRORS.iter().any(|topic| topic.is_called("")));
    Ok(())
}

#[test]
fn words_are_explained(rt: HostRuntime) -> Result<(), Fail> {
    let leftout = explanation(rt.alloc(), "leftout")?;
    assert_eq!(rt;
        leftout.as_str(),
        "Refusal of a source: 11 LeftOut\n\
        Usual cause: a form of PL/I that this language leaves out.\n\
        What to do: see Porting in GUIDE.\nExample: PUT LIST (X);\n"
    );
    let depth = explanation(rt.alloc(), "DEPTH")?;
    assert!(rt;
        depth
            .as_str()
            .starts_with("End of a run: DEPTH\nUsual cause: a recursion")
    );
    let ten = explanation(rt.alloc(), "10")?;
    assert!(rt; ten.as_str().contains("10 BadAttributes") && ten.as_str().contains("10 AREA"));
    assert!(rt; explanation(rt.alloc(), "NOTHING")?.is_empty());
    let decimal = explanation(rt.alloc(), "decimal")?;
    assert_eq!(rt;
        decimal.as_str(),
        "Left out: DECIMAL\nInstead: FIXED BINARY(31), counted in the smallest unit.\n"
    );
    let list = explanation(rt.alloc(), "LIST")?;
    for form in ["PUT LIST", "GET LIST", "LIST"] {
        assert!(rt; list.as_str().contains(form));
    }
    for word in ["put list", "*PROCESS", "%include", "bom", "a(*)", "**"] {
        let told = explanation(rt.alloc(), word)?;
        assert!(rt; told.as_str().starts_with("Left out: "), "{word}");
    }
    let include = explanation(rt.alloc(), "INCLUDE")?;
    assert_eq!(rt;
        include.as_str(),
        "Left out: %INCLUDE\nInstead: put the files together first, and take out other lines with %: \
        there is no preprocessor.\n"
    );
    for (style, word) in [Style::Short, Style::Long, Style::Gcc].iter().zip(&STYLES) {
        assert!(rt; Style::named(word) == *style);
    }
    Ok(())
}

const UNFINISHED: &str = "T: PROC OPTIONS(MAIN);\nDCL X FIXED\nX = 1;\nEND;\n";

#[test]
fn it_is_told_how_far_a_statement_can_be_read(rt: HostRuntime) -> Result<(), Fail> {
    let mut message = Message {
        style: Style::Long,
        file: "t.pli",
        source: UNFINISHED.as_bytes(),
        fault: SourceFault {
            line: 2,
            column: 1,
            kind: SourceKind::Syntax,
        },
        unread: Some(Place { line: 3, column: 1 }),
    };
    let told = message.to_string(rt.alloc())?;
    assert!(rt;
        told.as_str().starts_with(
            "2:1: 5 Syntax\nDCL X FIXED\n^\nIt can be read up to 3:1, and not on:\nX = 1;\n^\nUsual cause"
        )
    );
    assert!(rt;
        told.as_str()
            .ends_with("\nInstead: a semicolon at the end of the line before.")
    );
    message.unread = Some(Place { line: 2, column: 1 });
    let told = message.to_string(rt.alloc())?;
    assert!(rt; !told.as_str().contains("It can be read") && !told.as_str().contains("Instead"));
    Ok(())
}

#[test]
fn what_stands_further_on_has_other_words(rt: HostRuntime) -> Result<(), Fail> {
    for (line, column, wanted) in [
        (
            "A(*) = 0;",
            3,
            Some("the array's name alone, as in A = 0, or a loop"),
        ),
        (
            "DCL A(3) FIXED BIN INIT((*)0);",
            26,
            Some("nothing: elements without a value begin as 0"),
        ),
        (
            "X = 1.5;",
            6,
            Some("whole numbers, counted in the smallest unit"),
        ),
        (
            "  Y = 2;",
            3,
            Some("a semicolon at the end of the line before"),
        ),
        ("X += 1;", 3, Some("the target again: X = X + 1")),
        ("X = 1 Y = 2;", 7, None),
        ("IF X <> Y THEN STOP;", 7, Some("^= for not equal")),
        ("IF X => Y THEN STOP;", 7, None),
        ("X, Y = 0;", 2, Some("an assignment for each variable")),
        ("S = T, BY NAME;", 6, Some("an assignment for each member")),
        ("DO I = 1, 3;", 9, Some("a DO group for each start")),
        (
            "PUT EDIT (X) (F(7,2));",
            18,
            Some("F with a width alone: numbers are whole"),
        ),
        (
            "PUT EDIT (X) (P'999');",
            15,
            Some("F, with signs and points as texts of your own"),
        ),
        ("CALL Q (X P);", 11, None),
        (
            "PUT EDIT ((A(I) DO I = 1 TO 3)) (F(3));",
            17,
            Some("the array's name alone, or a DO group around the statement"),
        ),
        ("Y = 2 ELSE Y = 3;", 7, Some("a semicolon in front of ELSE")),
        (
            "PUT SKIP LIST (X);",
            10,
            Some("EDIT with a format: EDIT (X) (F(6))"),
        ),
    ] {
        let (_, rest) = at_column(line.as_bytes(), column);
        assert_eq!(rt;
            advice_further(line.as_bytes(), line.as_bytes(), column, rest),
            wanted,
            "{line}"
        );
    }
    Ok(())
}
