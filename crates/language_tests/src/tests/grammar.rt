//! Texts and the statements that they are.

mod refused;
mod shown;

use crate::tests::grammar::shown::{answer, rows_hold};
use crate::tests::same;
use std::alloc::Global;
use std::process::Abort;
use std::test::*;

/// Formulas: what a row shows, the formula, and what it is read as.
const FORMULAS: &[(&str, &str, &str)] = &[
    ("a_type", "A", "A"),
    ("a_sequence", "A ; B", "(A;B)"),
    ("a_sequence_is_one_list", "A;B;C", "(A;B;C)"),
    ("or_is_looser_than_sequence", "A OR B ; C", "(A|(B;C))"),
    ("alternatives_are_one_list", "A OR B or C", "(A|B|C)"),
    (
        "filter_is_the_loosest",
        "A OR B ; C FILTER A[v = 1]",
        "((A|(B;C)) under A[v=1])",
    ),
    (
        "filters_are_one_list",
        "A FILTER A[v = 1] FILTER A[v = 2]",
        "(A under A[v=1] A[v=2])",
    ),
    ("parentheses_leave_no_node", "((A)) ; (B)", "(A;B)"),
    ("parentheses_keep_their_lists", "(A ; B) ; C", "((A;B);C)"),
    (
        "parentheses_keep_alternatives",
        "(A OR B) OR C",
        "((A|B)|C)",
    ),
    (
        "filters_of_a_parenthesis_stay_its_own",
        "(A FILTER A[v = 1]) FILTER A[v = 2]",
        "((A under A[v=1]) under A[v=2])",
    ),
    ("postfix_is_the_tightest", "A ; B+", "(A;B+)"),
    (
        "postfixes_are_one_list",
        "A AS x + KEEP [x, A] :+",
        "A as x+ keep[x,A]:+",
    ),
    ("postfixes_of_a_parenthesis", "(A ; B) AS x", "(A;B) as x"),
    (
        "postfixes_in_and_outside_of_parentheses_are_two_lists",
        "(A+)+",
        "(A+)+",
    ),
    ("tight", "A : B", "(A:B)"),
    ("tight_and_loose_in_one_list", "A ; B : C ; D", "(A;B:C;D)"),
    ("tight_behind_a_parenthesis", "(A ; B) : C", "((A;B):C)"),
    ("tight_before_or", "A : B OR C", "((A:B)|C)"),
    ("next_plus", "A :+ ; B", "(A:+;B)"),
    (
        "and_is_tighter_than_or_in_filters",
        "A FILTER a[v=1] OR b[v=2] AND c[v=3]",
        "(A under (a[v=1]|(b[v=2]&c[v=3])))",
    ),
    (
        "filters_in_parentheses",
        "A FILTER (a[v=1] OR b[v=2]) AND c[v=3]",
        "(A under ((a[v=1]|b[v=2])&c[v=3]))",
    ),
    (
        "and_is_tighter_than_or_in_predicates",
        "A FILTER a[v<1 OR NOT v<>2 AND v>=3]",
        "(A under a[(v<1|(!v!=2&v>=3))])",
    ),
    (
        "not_before_a_parenthesis",
        "A FILTER a[NOT (v > 1 AND v <= 2)]",
        "(A under a[!(v>1&v<=2)])",
    ),
    (
        "not_not_with_parentheses",
        "A FILTER a[NOT (NOT v == 1)]",
        "(A under a[!!v=1])",
    ),
    (
        "literals",
        "A FILTER a[s = 'it''s' OR b = True OR n = -5 OR d = -1.50]",
        "(A under a[(s='it's'|b=true|n=-5|d=-150/2)])",
    ),
    (
        "double_quotes_and_other_quotes_inside",
        "A FILTER a[s = \"a\"\"b'c\"]",
        "(A under a[s='a\"b'c'])",
    ),
    (
        "keywords_in_any_case",
        "a filter a[v=1 And v=2]",
        "(a under a[(v=1&v=2)])",
    ),
];

fn formula_holds(
    rt: &impl Abort,
    alloc: Global,
    name: &str,
    formula: &str,
    read: &str,
) -> Result<(), Fail> {
    let text = format!(in alloc; "SELECT * FROM S WHERE {formula}")?;
    let end = text.len() + 1;
    let shown = answer(alloc, text.as_bytes())?;
    let wanted = format!(in alloc; "1:1 select * from S where {read}\nend 1:{end}")?;
    same(rt, shown.as_str(), wanted.as_str(), name);
    Ok(())
}

fn formulas_hold(rt: &impl Abort, alloc: Global, rows: &[(&str, &str, &str)]) -> Result<(), Fail> {
    for (name, formula, read) in rows {
        formula_holds(rt, alloc, name, formula, read)?;
    }
    Ok(())
}

#[test]
fn formulas_are_read_by_their_precedence(rt: HostRuntime) -> Result<(), Fail> {
    formulas_hold(&rt, rt.alloc(), FORMULAS)
}

/// Texts: what a row shows, the text, and its statements.
const TEXTS: &[(&str, &str, &str)] = &[
    ("an_empty_text_has_no_statement", "", "end 1:1"),
    ("comments_are_no_statement", "-- x\n", "end 2:1"),
    (
        "a_type",
        "DECLARE EVENT A(v INT, s string, b BOOL)",
        "event A(v int,s text,b flag)\nend 1:41",
    ),
    (
        "a_type_without_attributes",
        "declare event A()",
        "event A()\nend 1:18",
    ),
    (
        "decimal_numbers_keep_their_place",
        "DECLARE EVENT A(p DECIMAL(10), q DECIMAL(-2))",
        "event A(p dec 10@1:27,q dec -2@1:42)\nend 1:46",
    ),
    (
        "a_stream",
        "DECLARE STREAM S(A, B)",
        "stream S(A,B)\nend 1:23",
    ),
    (
        "the_next_word_begins_a_statement",
        "DECLARE EVENT A() DECLARE STREAM S(A) SELECT * FROM S WHERE A SELECT * FROM S WHERE A",
        "event A()\nstream S(A)\n1:39 select * from S where A\n1:63 select * from S where A\nend 1:86",
    ),
    (
        "names_and_streams",
        "SELECT x, A FROM S, T WHERE A AS x",
        "1:1 select x,A from S,T where A as x\nend 1:35",
    ),
    (
        "strict",
        "SELECT STRICT * FROM S WHERE A ; B",
        "1:1 select strict * from S where (A;B)\nend 1:35",
    ),
    (
        "any_keeps_its_number_and_place",
        "SELECT ANY 0 * FROM S WHERE A",
        "1:1 select any 0@1:12 * from S where A\nend 1:30",
    ),
    (
        "strict_and_then_any",
        "SELECT STRICT ANY -3 b FROM S WHERE A AS b",
        "1:1 select strict any -3@1:19 b from S where A as b\nend 1:43",
    ),
    (
        "partition",
        "SELECT * FROM S WHERE A PARTITION BY [u, v]",
        "1:1 select * from S where A by u,v\nend 1:44",
    ),
    (
        "a_window_of_events",
        "SELECT * FROM S WHERE A WITHIN 8 EVENTS",
        "1:1 select * from S where A within 8 events\nend 1:40",
    ),
    (
        "one_event_and_no_event",
        "SELECT * FROM S WHERE A WITHIN 1 event SELECT * FROM S WHERE A WITHIN 0 EVENTS",
        "1:1 select * from S where A within 1 events\n1:40 select * from S where A within 0 events\nend 1:79",
    ),
    (
        "a_window_without_unit",
        "SELECT * FROM S WHERE A WITHIN 5 [t]",
        "1:1 select * from S where A within 5 of t\nend 1:37",
    ),
    (
        "seconds_minutes_and_hours",
        "SELECT * FROM S WHERE A WITHIN 5 SECOND [t] SELECT * FROM S WHERE A WITHIN 2 MINUTES [t] SELECT * FROM S WHERE A WITHIN 9223372036854775807 HOURS [t]",
        "1:1 select * from S where A within 5 of t\n1:45 select * from S where A within 120 of t\n1:90 select * from S where A within 33204139332677192905200 of t\nend 1:150",
    ),
    (
        "partition_and_then_window",
        "SELECT * FROM S WHERE A PARTITION BY [u] WITHIN 1 HOUR [t]",
        "1:1 select * from S where A by u within 3600 of t\nend 1:59",
    ),
    (
        "lines_and_columns",
        "DECLARE EVENT A()\n  SELECT *\nFROM S WHERE A\n",
        "event A()\n2:3 select * from S where A\nend 4:1",
    ),
    (
        "a_mark_at_the_beginning_takes_no_column",
        "\u{FEFF}SELECT * FROM S WHERE A",
        "1:1 select * from S where A\nend 1:24",
    ),
    (
        "names_differ_by_case",
        "DECLARE STREAM s(a, A)",
        "stream s(a,A)\nend 1:23",
    ),
];

#[test]
fn texts_are_read_as_statements(rt: HostRuntime) -> Result<(), Fail> {
    rows_hold(&rt, rt.alloc(), TEXTS)
}
