//! Query texts and events by chance.

ghost use Rattle.std.specs.Prelude.{◌<◌};

use rand_core::utils::NextWord;
use rand_pcg::Pcg32;
use std::alloc::{AllocError, Global};

/// Three types, of which the third has no key, a stream of all and one of two.
pub const DECLARATIONS: &str = "\
DECLARE EVENT A(v INT, k INT, t INT)
DECLARE EVENT B(v INT, k INT, t INT)
DECLARE EVENT C(v INT, t INT)
DECLARE STREAM S(A, B, C)
DECLARE STREAM T(A, B)
";

const PREDICATES: &[&str] = &[
    "v = 1",
    "v < 2",
    "NOT v = 1",
    "v > 0 AND v < 3",
    "v = 0 OR k = 1",
    "NOT k = 1",
    "NOT (v = 1 OR k = 0)",
    "v >= 1.5",
];

/// A formula, the names that are known of it, and how much it has to choose from.
#[derive(Drop)]
struct Part {
    text: String,
    names: Vec<&'static str>,
    choices: u64,
}

/// A formula with more choices than these is not repeated, so that the definition can be computed.
const MOST_CHOICES: u64 = 4;

/// A number below the bound.
fn below(random: &mut Pcg32, bound: u32) -> u32
    requires some { 0 < bound }
{
    random.next_word() % bound
}

/// One of the texts; an empty one where there is none.
fn one_of(random: &mut Pcg32, texts: &[&'static str]) -> &'static str {
    let at = random.next_word() as usize % texts.len().max(1);
    texts.get(at).copied().unwrap_or("")
}

fn leaf(alloc: Global, random: &mut Pcg32, types: &[&'static str]) -> Result<Part, AllocError> {
    let ty = one_of(random, types);
    Ok(Part {
        text: ty.to_string(alloc)?,
        names: vec![in alloc; ty]?,
        choices: 1,
    })
}

/// A sequence is made most often.
const SIGNS: &[&str] = &[";", ";", ";", ":", "OR"];

fn joined(
    alloc: Global,
    random: &mut Pcg32,
    first: Part,
    second: Part,
) -> Result<Part, AllocError> {
    let sign = one_of(random, SIGNS);
    let text = format!(in alloc; "({} {sign} {})", first.text, second.text)?;
    let mut names = first.names;
    names.extend_from_slice(second.names.as_slice())?;
    Ok(Part {
        text,
        names,
        choices: first.choices.saturating_add(second.choices),
    })
}

const VARIABLES: &[&str] = &["x", "y"];

fn named(alloc: Global, random: &mut Pcg32, part: Part) -> Result<Part, AllocError> {
    let name = one_of(random, VARIABLES);
    let text = format!(in alloc; "{} AS {name}", part.text)?;
    let mut names = part.names;
    names.push(name)?;
    Ok(Part {
        text,
        names,
        choices: part.choices,
    })
}

fn kept(alloc: Global, random: &mut Pcg32, part: Part) -> Result<Part, AllocError> {
    let name = one_of(random, part.names.as_slice());
    Ok(Part {
        text: format!(in alloc; "{} KEEP [{name}]", part.text)?,
        names: vec![in alloc; name]?,
        choices: part.choices,
    })
}

/// A condition on one of the names, or on two.
fn condition(
    alloc: Global,
    random: &mut Pcg32,
    names: &[&'static str],
) -> Result<String, AllocError> {
    let name = one_of(random, names);
    let other = one_of(random, names);
    let first = one_of(random, PREDICATES);
    let second = one_of(random, PREDICATES);
    match below(random, 4) {
        0 => format!(in alloc; "{name}[{first}] OR {other}[{second}]"),
        1 => format!(in alloc; "{name}[{first}] AND {other}[{second}]"),
        _ => format!(in alloc; "{name}[{first}]"),
    }
}

fn filtered(alloc: Global, random: &mut Pcg32, part: Part) -> Result<Part, AllocError> {
    let condition = condition(alloc, random, part.names.as_slice())?;
    Ok(Part {
        text: format!(in alloc; "({} FILTER {condition})", part.text)?,
        names: part.names,
        choices: part.choices,
    })
}

/// The part as often as one likes, where it has few choices.
fn repeated(alloc: Global, part: Part, sign: &str) -> Result<Part, AllocError> {
    if part.choices > MOST_CHOICES {
        return Ok(part);
    }
    Ok(Part {
        text: format!(in alloc; "{} {sign}", part.text)?,
        names: part.names,
        choices: part.choices.saturating_mul(3),
    })
}

/// The part, or the part with a postfix or a filter after it.
fn changed(alloc: Global, random: &mut Pcg32, part: Part) -> Result<Part, AllocError> {
    match below(random, 12) {
        0 | 1 | 2 => repeated(alloc, part, "+"),
        3 => repeated(alloc, part, ":+"),
        4 => named(alloc, random, part),
        5 => kept(alloc, random, part),
        6 => filtered(alloc, random, part),
        _ => Ok(part),
    }
}

/// A type with or without a postfix or a filter.
fn changed_leaf(
    alloc: Global,
    random: &mut Pcg32,
    types: &[&'static str],
) -> Result<Part, AllocError> {
    let part = leaf(alloc, random, types)?;
    changed(alloc, random, part)
}

/// The two parts in one of the orders.
fn in_some_order(
    alloc: Global,
    random: &mut Pcg32,
    whole: Part,
    other: Part,
) -> Result<Part, AllocError> {
    if below(random, 3) == 0 {
        joined(alloc, random, other, whole)
    } else {
        joined(alloc, random, whole, other)
    }
}

/// The whole, joined with one more leaf.
fn longer(
    alloc: Global,
    random: &mut Pcg32,
    types: &[&'static str],
    whole: Part,
) -> Result<Part, AllocError> {
    let other = changed_leaf(alloc, random, types)?;
    let both = in_some_order(alloc, random, whole, other)?;
    changed(alloc, random, both)
}

/// A formula of at most five leaves.
fn formula(alloc: Global, random: &mut Pcg32, types: &[&'static str]) -> Result<Part, AllocError> {
    let mut whole = changed_leaf(alloc, random, types)?;
    for _ in 0..below(random, 5) {
        whole = longer(alloc, random, types, whole)?;
    }
    Ok(whole)
}

fn window(alloc: Global, random: &mut Pcg32) -> Result<String, AllocError> {
    let width = below(random, 8);
    match below(random, 4) {
        0 => format!(in alloc; " WITHIN {width} EVENTS"),
        1 => format!(in alloc; " WITHIN {width} [t]"),
        _ => Ok(String::new(alloc)),
    }
}

const STRICT: &[&str] = &["", "", "", "STRICT "];

const PARTITIONS: &[&str] = &["", "", " PARTITION BY [k]", " PARTITION BY [v, k]"];

/// The query of the formula over the stream.
fn query_over(
    alloc: Global,
    random: &mut Pcg32,
    stream: &str,
    part: &Part,
) -> Result<String, AllocError> {
    let strict = one_of(random, STRICT);
    let select = match below(random, 3) {
        0 => one_of(random, part.names.as_slice()),
        _ => "*",
    };
    let partition = one_of(random, PARTITIONS);
    let window = window(alloc, random)?;
    format!(in alloc;
        "SELECT {strict}{select} FROM {stream} WHERE {}{partition}{window}",
        part.text
    )
}

/// The types of the two streams, the first two most often.
const OF_T: &[&str] = &["A", "B"];

const OF_S: &[&str] = &["A", "A", "B", "B", "C"];

/// A query over one of the streams.
pub fn query(alloc: Global, random: &mut Pcg32) -> Result<String, AllocError> {
    if below(random, 3) == 0 {
        let part = formula(alloc, random, OF_T)?;
        query_over(alloc, random, "T", &part)
    } else {
        let part = formula(alloc, random, OF_S)?;
        query_over(alloc, random, "S", &part)
    }
}

/// Adds the line of an event at the time.
fn push_line(text: &mut String, random: &mut Pcg32, time: u64) -> Result<(), AllocError> {
    let value = below(random, 3);
    let key = below(random, 2);
    let ty = one_of(random, OF_S);
    if ty == "C" {
        write!(text, "C,{value},{time}")
    } else {
        write!(text, "{ty},{value},{key},{time}")
    }
}

/// The lines of at most ten events, which a semicolon parts. Their time does not fall.
pub fn lines(alloc: Global, random: &mut Pcg32) -> Result<String, AllocError> {
    let mut text = String::new(alloc);
    let mut time: u64 = 0;
    for k in 0..below(random, 5).saturating_add(6) {
        if k > 0 {
            text.push(';')?;
        }
        time = time.saturating_add(below(random, 2) as u64);
        push_line(&mut text, random, time)?;
    }
    Ok(text)
}
