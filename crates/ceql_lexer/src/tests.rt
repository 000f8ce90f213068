//! Texts and what they are cut into.

use crate::{LexError, LexFault, TokenKind, lex};
use cer_base::OrMemory;
use std::alloc::{AllocError, Global};
use std::test::*;

/// A letter for each kind of token.
fn letter(kind: TokenKind) -> char {
    match kind {
        TokenKind::Name => 'n',
        TokenKind::Keyword => 'k',
        TokenKind::Number => 'i',
        TokenKind::Decimal => 'd',
        TokenKind::Quoted => 'q',
        TokenKind::Sign => 's',
        TokenKind::End => 'e',
    }
}

/// The fault and its place.
fn fault_text(alloc: Global, error: LexError) -> Result<String, AllocError> {
    let place = error.place;
    let name = match error.fault {
        LexFault::BadByte { byte } => {
            return format!(in alloc; "bad byte {byte:02x} at {}:{}", place.line, place.col);
        }
        LexFault::OpenString => "open string",
        LexFault::NumberTooLarge => "too large",
        LexFault::NotUtf8 => "not UTF-8",
        LexFault::TooFine => "too fine",
    };
    format!(in alloc; "{name} at {}:{}", place.line, place.col)
}

/// The tokens, each its letter, its place and its slice, or the fault.
fn answer(alloc: Global, text: &[u8]) -> Result<String, AllocError> {
    match lex(alloc, text) {
        Ok(tokens) => {
            let mut all = String::new(alloc);
            for token in tokens.as_slice() {
                let slice = token.text.as_str();
                let place = token.place;
                let kind = letter(token.kind);
                let one = format!(in alloc; "{kind}{}:{} {slice}|", place.line, place.col)?;
                all.push_str(one.as_str())?;
            }
            Ok(all)
        }
        Err(OrMemory::Fault(error)) => fault_text(alloc, error),
        Err(OrMemory::Memory) => Err(AllocError),
    }
}

#[test]
fn texts_are_cut_into_their_tokens(rt: HostRuntime) -> Result<(), Fail> {
    let alloc = rt.alloc();
    let cases: [(&str, &[u8], &str); 50] = [
        ("an_empty_text_has_its_end", b"", "e1:1 |"),
        (
            "a_query",
            b"SELECT * FROM S WHERE A ; B",
            "k1:1 SELECT|s1:8 *|k1:10 FROM|n1:15 S|k1:17 WHERE|n1:23 A|s1:25 ;|n1:27 B|e1:28 |",
        ),
        (
            "signs_of_one_byte",
            b"()[],;:+*=<>",
            "s1:1 (|s1:2 )|s1:3 [|s1:4 ]|s1:5 ,|s1:6 ;|s1:7 :+|s1:9 *|s1:10 =|s1:11 <>|e1:13 |",
        ),
        (
            "signs_are_the_longest",
            b"==!=<><=>=:+===<==",
            "s1:1 ==|s1:3 !=|s1:5 <>|s1:7 <=|s1:9 >=|s1:11 :+|s1:13 ==|s1:15 =|s1:16 <=|s1:18 =|e1:19 |",
        ),
        (
            "a_blank_parts_signs",
            b": + < =",
            "s1:1 :|s1:3 +|s1:5 <|s1:7 =|e1:8 |",
        ),
        ("digits_do_not_begin_a_name", b"5x", "i1:1 5|n1:2 x|e1:3 |"),
        (
            "names_are_the_longest",
            b"_a1_ B2 9_z",
            "n1:1 _a1_|n1:6 B2|i1:9 9|n1:10 _z|e1:12 |",
        ),
        (
            "keywords_in_any_case",
            b"select sElEcT SELECTS within Strict any DECIMAL",
            "k1:1 select|k1:8 sElEcT|n1:15 SELECTS|k1:23 within|k1:30 Strict|k1:37 any|k1:41 DECIMAL|e1:48 |",
        ),
        ("a_comment_may_end_the_text", b"A--", "n1:1 A|e1:4 |"),
        (
            "a_comment_ends_before_the_line_feed",
            b"--\xFF ' ?\nA",
            "n2:1 A|e2:2 |",
        ),
        ("three_dashes_are_a_comment", b"---5\n-5", "i2:1 -5|e2:3 |"),
        ("a_lone_dash_is_bad", b"- 5", "bad byte 2d at 1:1"),
        ("a_dash_at_the_end_is_bad", b"A -", "bad byte 2d at 1:3"),
        ("a_dash_before_a_name_is_bad", b"-A", "bad byte 2d at 1:1"),
        ("a_negative_number", b"A=-5", "n1:1 A|s1:2 =|i1:3 -5|e1:5 |"),
        ("two_numbers", b"1-5", "i1:1 1|i1:2 -5|e1:4 |"),
        (
            "the_greatest_number",
            b"9223372036854775807",
            "i1:1 9223372036854775807|e1:20 |",
        ),
        (
            "one_more_is_too_large",
            b" 9223372036854775808",
            "too large at 1:2",
        ),
        (
            "the_least_number",
            b"-9223372036854775808",
            "i1:1 -9223372036854775808|e1:21 |",
        ),
        (
            "one_less_is_too_large",
            b"\n-9223372036854775809",
            "too large at 2:1",
        ),
        (
            "leading_zeros_do_not_count",
            b"00000000000000000000000000000000001",
            "i1:1 00000000000000000000000000000000001|e1:36 |",
        ),
        (
            "a_long_number_is_too_large",
            b"100000000000000000000000000000000",
            "too large at 1:1",
        ),
        ("a_decimal", b"1.5 -0.25", "d1:1 1.5|d1:5 -0.25|e1:10 |"),
        ("nine_decimals", b"1.123456789", "d1:1 1.123456789|e1:12 |"),
        (
            "ten_decimals_are_too_fine",
            b"1.0000000000",
            "too fine at 1:1",
        ),
        (
            "too_fine_comes_before_too_large",
            b"9223372036854775808.0000000000",
            "too fine at 1:1",
        ),
        (
            "the_greatest_decimal",
            b"9223372036.854775807",
            "d1:1 9223372036.854775807|e1:21 |",
        ),
        (
            "a_decimal_counts_without_its_point",
            b"9223372036.854775808",
            "too large at 1:1",
        ),
        (
            "the_least_decimal",
            b"-9223372036.854775808",
            "d1:1 -9223372036.854775808|e1:22 |",
        ),
        ("a_point_needs_a_digit", b"1.", "bad byte 2e at 1:2"),
        ("a_point_needs_a_digit_before", b".5", "bad byte 2e at 1:1"),
        ("a_second_point_is_bad", b"1.5.", "bad byte 2e at 1:4"),
        (
            "a_doubled_quote_stands_for_itself",
            b"'a''b'\"c\"\"'\"",
            "q1:1 'a''b'|q1:7 \"c\"\"'\"|e1:13 |",
        ),
        ("empty_strings", b"'' \"\"", "q1:1 ''|q1:4 \"\"|e1:6 |"),
        (
            "a_string_keeps_other_bytes",
            "'a--\t\u{e9}'x".as_bytes(),
            "q1:1 'a--\t\u{e9}'|n1:9 x|e1:10 |",
        ),
        (
            "a_string_ends_in_its_line",
            b"A 'x\n'",
            "open string at 1:3",
        ),
        ("a_string_ends_in_the_text", b"A \"x'", "open string at 1:3"),
        (
            "a_doubled_quote_does_not_close",
            b"'x''",
            "open string at 1:1",
        ),
        ("a_string_is_utf8", b"A '\xFF'", "not UTF-8 at 1:3"),
        (
            "an_open_string_is_open_first",
            b"'\xFF",
            "open string at 1:1",
        ),
        (
            "columns_count_bytes",
            "'\u{20ac}' ?".as_bytes(),
            "bad byte 3f at 1:7",
        ),
        (
            "tabs_and_carriage_returns_are_blanks",
            b"\tA\r\n\r\n B\t\r\n",
            "n1:2 A|n3:2 B|e4:1 |",
        ),
        (
            "a_byte_order_mark_takes_no_column",
            b"\xEF\xBB\xBFA",
            "n1:1 A|e1:2 |",
        ),
        (
            "a_later_byte_order_mark_is_bad",
            b"A\xEF\xBB\xBF",
            "bad byte ef at 1:2",
        ),
        ("the_first_fault_counts", b"A ? 'x", "bad byte 3f at 1:3"),
        (
            "an_exclamation_mark_alone_is_bad",
            b"A ! =",
            "bad byte 21 at 1:3",
        ),
        (
            "a_string_of_a_filter_is_open",
            b"\n\n\nSELECT * FROM S WHERE A FILTER A[v = 'x]\n",
            "open string at 4:38",
        ),
        (
            "a_number_of_a_filter_is_too_large",
            b"\n\n\nSELECT * FROM S WHERE A FILTER A[v = 9223372036854775808]\n",
            "too large at 4:38",
        ),
        (
            "a_question_mark_is_bad",
            b"\n\n\nSELECT * FROM S WHERE A ? B\n",
            "bad byte 3f at 4:25",
        ),
        ("a_zero_byte_is_bad", b"A\0", "bad byte 00 at 1:2"),
    ];
    for (name, text, want) in cases {
        let got = answer(alloc, text)?;
        assert_eq!(rt; got.as_str(), want, "at {name}");
    }
    Ok(())
}

#[test]
fn a_text_longer_than_a_block_is_cut_whole(rt: HostRuntime) -> Result<(), Fail> {
    let alloc = rt.alloc();
    let mut text = String::new(alloc);
    for _ in 0..20_000u64 {
        text.push_str("ab ; ")?;
    }
    let tokens = match lex(alloc, text.as_bytes()) {
        Ok(tokens) => tokens.as_slice().len(),
        Err(_) => 0,
    };
    assert_eq!(rt; tokens, 40_001);
    Ok(())
}
