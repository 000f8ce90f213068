//! Texts that are refused, and how deeply parentheses may nest.

use crate::tests::grammar::shown::{answer, rows_hold};
use crate::tests::{repeated, same};
use std::alloc::{AllocError, Global};
use std::process::Abort;
use std::test::*;

/// Texts: what a row shows, the text, and its fault.
const REFUSED: &[(&str, &str, &str)] = &[
    (
        "a_second_type",
        "SELECT * FROM S WHERE A B",
        "1:25 unexpected token",
    ),
    (
        "an_end_too_early",
        "SELECT * FROM S WHERE",
        "1:22 unexpected end of text",
    ),
    (
        "an_end_on_a_later_line",
        "SELECT * FROM S WHERE A ;\n",
        "2:1 unexpected end of text",
    ),
    ("no_statement_begins_so", "FROM S", "1:1 unexpected token"),
    ("a_name_begins_no_statement", "A", "1:1 unexpected token"),
    ("declare_alone", "DECLARE", "1:8 unexpected end of text"),
    ("declare_select", "DECLARE SELECT", "1:9 unexpected token"),
    (
        "an_event_without_a_name",
        "DECLARE EVENT (v INT)",
        "1:15 unexpected token",
    ),
    (
        "a_keyword_is_no_name",
        "DECLARE EVENT within()",
        "1:15 unexpected token",
    ),
    (
        "an_attribute_without_a_kind",
        "DECLARE EVENT A(v)",
        "1:18 unexpected token",
    ),
    (
        "a_comma_before_no_attribute",
        "DECLARE EVENT A(v INT,)",
        "1:23 unexpected token",
    ),
    (
        "no_comma_between_attributes",
        "DECLARE EVENT A(v INT w INT)",
        "1:23 unexpected token",
    ),
    (
        "a_name_is_no_kind",
        "DECLARE EVENT A(v INTEGER)",
        "1:19 unexpected token",
    ),
    (
        "decimal_without_its_number",
        "DECLARE EVENT A(v DECIMAL)",
        "1:26 unexpected token",
    ),
    (
        "decimal_of_a_decimal_number",
        "DECLARE EVENT A(v DECIMAL(2.5))",
        "1:27 unexpected token",
    ),
    (
        "a_stream_without_types",
        "DECLARE STREAM S()",
        "1:18 unexpected token",
    ),
    (
        "nothing_behind_a_declaration",
        "DECLARE EVENT A() ;",
        "1:19 unexpected token",
    ),
    (
        "a_sign_behind_a_stream",
        "DECLARE STREAM S(A))",
        "1:20 unexpected token",
    ),
    (
        "a_keyword_in_the_list",
        "SELECT a, FILTER FROM S WHERE A",
        "1:11 unexpected token",
    ),
    (
        "any_before_strict",
        "SELECT ANY 1 STRICT * FROM S WHERE A",
        "1:14 unexpected token",
    ),
    (
        "any_without_a_number",
        "SELECT ANY * FROM S WHERE A",
        "1:12 unexpected token",
    ),
    (
        "any_with_a_decimal_number",
        "SELECT ANY 2.5 * FROM S WHERE A",
        "1:12 unexpected token",
    ),
    (
        "star_and_names",
        "SELECT *, a FROM S WHERE A",
        "1:9 unexpected token",
    ),
    (
        "a_keyword_as_type",
        "SELECT * FROM S WHERE Select",
        "1:23 unexpected token",
    ),
    (
        "or_without_a_right_side",
        "SELECT * FROM S WHERE A OR",
        "1:27 unexpected end of text",
    ),
    (
        "and_joins_no_formulas",
        "SELECT * FROM S WHERE A AND B",
        "1:25 unexpected token",
    ),
    (
        "a_parenthesis_not_closed",
        "SELECT * FROM S WHERE (A ; B",
        "1:29 unexpected end of text",
    ),
    (
        "a_parenthesis_not_opened",
        "SELECT * FROM S WHERE A )",
        "1:25 unexpected token",
    ),
    (
        "empty_parentheses",
        "SELECT * FROM S WHERE ()",
        "1:24 unexpected token",
    ),
    (
        "filter_is_no_part_of_a_sequence",
        "SELECT * FROM S WHERE A FILTER A[v=1] ; B",
        "1:39 unexpected token",
    ),
    (
        "a_postfix_behind_a_filter",
        "SELECT * FROM S WHERE A FILTER A[v=1] +",
        "1:39 unexpected token",
    ),
    (
        "or_behind_a_filter_joins_filters",
        "SELECT * FROM S WHERE A FILTER A[v=1] OR B",
        "1:43 unexpected end of text",
    ),
    (
        "a_filter_without_brackets",
        "SELECT * FROM S WHERE A FILTER A",
        "1:33 unexpected end of text",
    ),
    (
        "not_before_a_filter",
        "SELECT * FROM S WHERE A FILTER NOT A[v=1]",
        "1:32 unexpected token",
    ),
    (
        "an_empty_predicate",
        "SELECT * FROM S WHERE A FILTER A[]",
        "1:34 unexpected token",
    ),
    (
        "a_comparison_of_names",
        "SELECT * FROM S WHERE A FILTER A[v = w]",
        "1:38 unexpected token",
    ),
    (
        "a_literal_on_the_left",
        "SELECT * FROM S WHERE A FILTER A[1 = v]",
        "1:34 unexpected token",
    ),
    (
        "a_predicate_not_closed",
        "SELECT * FROM S WHERE A FILTER A[v = 1",
        "1:39 unexpected end of text",
    ),
    (
        "keep_without_brackets",
        "SELECT * FROM S WHERE A KEEP x",
        "1:30 unexpected token",
    ),
    (
        "keep_without_names",
        "SELECT * FROM S WHERE A KEEP []",
        "1:31 unexpected token",
    ),
    (
        "as_a_keyword",
        "SELECT * FROM S WHERE A AS any",
        "1:28 unexpected token",
    ),
    (
        "colon_and_plus_apart_are_no_postfix",
        "SELECT * FROM S WHERE A : + B",
        "1:27 unexpected token",
    ),
    (
        "not_not",
        "SELECT * FROM S WHERE A FILTER a[NOT NOT v = 1]",
        "1:38 unexpected token",
    ),
    (
        "a_window_of_minus_five",
        "SELECT * FROM S WHERE A WITHIN -5 EVENTS",
        "1:32 unexpected token",
    ),
    (
        "a_window_of_minus_zero",
        "SELECT * FROM S WHERE A WITHIN -0 EVENTS",
        "1:32 unexpected token",
    ),
    (
        "a_window_of_a_decimal_number",
        "SELECT * FROM S WHERE A WITHIN 1.5 [t]",
        "1:32 unexpected token",
    ),
    (
        "a_window_of_events_and_an_attribute",
        "SELECT * FROM S WHERE A WITHIN 5 EVENTS [t]",
        "1:41 unexpected token",
    ),
    (
        "window_before_partition",
        "SELECT * FROM S WHERE A WITHIN 5 EVENTS PARTITION BY [u]",
        "1:41 unexpected token",
    ),
    (
        "two_windows",
        "SELECT * FROM S WHERE A WITHIN 5 EVENTS WITHIN 5 EVENTS",
        "1:41 unexpected token",
    ),
];

#[test]
fn the_first_token_that_does_not_fit_is_refused(rt: HostRuntime) -> Result<(), Fail> {
    rows_hold(&rt, rt.alloc(), REFUSED)
}

/// A text with many parentheses: what it shows, a beginning, so many `(` and so many `)` around an A,
/// an end, how often the whole stands in the text, and what is wanted.
struct NestedText {
    name: &'static str,
    before: &'static str,
    open: u64,
    close: u64,
    after: &'static str,
    times: u64,
    wanted: &'static str,
}

const DEEP_TEXTS: &[NestedText] = &[
    NestedText {
        name: "64_are_read",
        before: "SELECT * FROM S WHERE ",
        open: 64,
        close: 64,
        after: "",
        times: 1,
        wanted: "1:1 select * from S where A\nend 1:152",
    },
    NestedText {
        name: "the_65th_is_refused",
        before: "SELECT * FROM S WHERE ",
        open: 65,
        close: 65,
        after: "",
        times: 1,
        wanted: "1:87 nested too deeply",
    },
    NestedText {
        name: "the_65th_is_refused_before_the_grammar",
        before: "SELECT * FROM S WHERE B C ",
        open: 65,
        close: 0,
        after: "",
        times: 1,
        wanted: "1:91 nested too deeply",
    },
    NestedText {
        name: "each_statement_counts_anew",
        before: "SELECT * FROM S WHERE ",
        open: 64,
        close: 64,
        after: "",
        times: 2,
        wanted: "1:1 select * from S where A\n1:153 select * from S where A\nend 1:304",
    },
    NestedText {
        name: "a_closed_one_is_not_open",
        before: "SELECT * FROM S WHERE ",
        open: 64,
        close: 64,
        after: " ; (B)",
        times: 1,
        wanted: "1:1 select * from S where (A;B)\nend 1:158",
    },
    NestedText {
        name: "what_an_earlier_statement_left_open_is_not_counted",
        before: "SELECT * FROM S WHERE ",
        open: 40,
        close: 0,
        after: "",
        times: 2,
        wanted: "1:65 unexpected token",
    },
    NestedText {
        name: "those_of_declarations_count",
        before: "DECLARE EVENT A",
        open: 65,
        close: 0,
        after: "",
        times: 1,
        wanted: "1:80 nested too deeply",
    },
    NestedText {
        name: "a_close_without_an_open_counts_nothing",
        before: "SELECT * FROM S WHERE A ) ",
        open: 65,
        close: 0,
        after: "",
        times: 1,
        wanted: "1:91 nested too deeply",
    },
];

/// The text of the row, with a blank between the wholes.
fn text_of(alloc: Global, row: &NestedText) -> Result<String, AllocError> {
    let opened = repeated(alloc, row.before, "(", row.open, "A")?;
    let whole = repeated(alloc, opened.as_str(), ")", row.close, row.after)?;
    let next = format!(in alloc; " {whole}")?;
    let more = row.times.saturating_sub(1);
    repeated(alloc, whole.as_str(), next.as_str(), more, "")
}

fn nested_hold(rt: &impl Abort, alloc: Global, rows: &[NestedText]) -> Result<(), Fail> {
    for row in rows {
        let text = text_of(alloc, row)?;
        let shown = answer(alloc, text.as_bytes())?;
        same(rt, shown.as_str(), row.wanted, row.name);
    }
    Ok(())
}

#[test]
fn parentheses_nest_64_deep(rt: HostRuntime) -> Result<(), Fail> {
    nested_hold(&rt, rt.alloc(), DEEP_TEXTS)
}
