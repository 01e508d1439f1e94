// A slow recogniser that knows the grammar as rules of two parts, and no descent: which symbols derive each span of the
// tokens (Cocke, Younger and Kasami). It is compared with the parser on every string of some tokens.
use anyhow::{Result, ensure};
use s80_base::Text;
use s80_syntax::{parse_doit, parse_method};
use std::alloc::Global;

// A set of symbols is a sum of these. The first fifteen are tokens.
const NAME: u64 = 1;

const NUMBER: u64 = 1 << 1;

const KEYWORD: u64 = 1 << 2;

const BINARY: u64 = 1 << 3;

const BAR: u64 = 1 << 4;

const ASSIGN: u64 = 1 << 5;

const SEMICOLON: u64 = 1 << 6;

const PERIOD: u64 = 1 << 7;

const CARET: u64 = 1 << 8;

const OPEN_PAREN: u64 = 1 << 9;

const CLOSE_PAREN: u64 = 1 << 10;

const OPEN_BRACKET: u64 = 1 << 11;

const CLOSE_BRACKET: u64 = 1 << 12;

const COLON: u64 = 1 << 13;

const ARRAY_START: u64 = 1 << 14;

const EXPRESSION_AND_PAREN: u64 = 1 << 15;

const ARRAY_END: u64 = 1 << 16;

const ELEMENTS: u64 = 1 << 17;

const ARRAY: u64 = 1 << 18;

const PAREN_ARRAY: u64 = 1 << 19;

const PARAMETER: u64 = 1 << 20;

const PARAMETERS: u64 = 1 << 21;

const BLOCK_CLOSE: u64 = 1 << 22;

const BLOCK_END: u64 = 1 << 23;

const BAR_AND_CLOSE: u64 = 1 << 24;

const PRIMARY: u64 = 1 << 25;

const UNARIES: u64 = 1 << 26;

const BINARY_PART: u64 = 1 << 27;

const BINARIES: u64 = 1 << 28;

const KEYWORD_PARTS: u64 = 1 << 29;

const SENT: u64 = 1 << 30;

const CASCADE: u64 = 1 << 31;

const MESSAGE: u64 = 1 << 32;

const TARGET: u64 = 1 << 33;

const EXPRESSION: u64 = 1 << 34;

const STEP: u64 = 1 << 35;

const RETURN: u64 = 1 << 36;

const BODY: u64 = 1 << 37;

const NAMES: u64 = 1 << 38;

const NAMES_AND_BAR: u64 = 1 << 39;

const TEMPORARIES: u64 = 1 << 40;

const KEYWORD_PATTERN: u64 = 1 << 41;

const PATTERN: u64 = 1 << 42;

const DOIT: u64 = 1 << 43;

const METHOD: u64 = 1 << 44;

/// A symbol, and what it is alone: one of a set.
static SINGLES: [(u64, u64); 15] = [
    (
        ELEMENTS,
        NAME | NUMBER | KEYWORD | BINARY | BAR | ARRAY | PAREN_ARRAY,
    ),
    (ARRAY_END, CLOSE_PAREN),
    (PARAMETERS, PARAMETER),
    (BLOCK_CLOSE, CLOSE_BRACKET),
    (BLOCK_END, BLOCK_CLOSE),
    (PRIMARY, NAME | NUMBER | ARRAY),
    (UNARIES, PRIMARY),
    (BINARIES, UNARIES),
    (MESSAGE, NAME | BINARY_PART | KEYWORD_PARTS),
    (EXPRESSION, BINARIES | SENT),
    (BODY, EXPRESSION | STEP | RETURN),
    (NAMES, NAME),
    (PATTERN, NAME | KEYWORD_PATTERN),
    (DOIT, BODY | TEMPORARIES),
    (METHOD, PATTERN),
];

/// A symbol, and its two parts, each one of a set.
static PAIRS: [(u64, u64, u64); 35] = [
    (EXPRESSION_AND_PAREN, EXPRESSION, CLOSE_PAREN),
    (PRIMARY, OPEN_PAREN, EXPRESSION_AND_PAREN),
    (ARRAY_END, ELEMENTS, CLOSE_PAREN),
    (ARRAY, ARRAY_START, ARRAY_END),
    (PAREN_ARRAY, OPEN_PAREN, ARRAY_END),
    (ELEMENTS, ELEMENTS, ELEMENTS),
    (PARAMETER, COLON, NAME),
    (PARAMETERS, PARAMETER, PARAMETERS),
    (BLOCK_CLOSE, BODY, CLOSE_BRACKET),
    (BAR_AND_CLOSE, BAR, BLOCK_CLOSE),
    (BLOCK_END, PARAMETERS, CLOSE_BRACKET | BAR_AND_CLOSE),
    (PRIMARY, OPEN_BRACKET, BLOCK_END),
    (UNARIES | SENT, UNARIES, NAME),
    (BINARY_PART, BINARY | BAR, UNARIES),
    (BINARIES | SENT, BINARIES, BINARY_PART),
    (KEYWORD_PARTS, KEYWORD, BINARIES),
    (KEYWORD_PARTS, KEYWORD_PARTS, KEYWORD_PARTS),
    (SENT, BINARIES, KEYWORD_PARTS),
    (CASCADE, SEMICOLON, MESSAGE),
    (CASCADE, CASCADE, CASCADE),
    (EXPRESSION, SENT, CASCADE),
    (TARGET, NAME, ASSIGN),
    (EXPRESSION, TARGET, EXPRESSION),
    (STEP, EXPRESSION, PERIOD),
    (RETURN, CARET, EXPRESSION),
    (BODY, RETURN, PERIOD),
    (BODY, STEP, BODY),
    (NAMES, NAME, NAMES),
    (NAMES_AND_BAR, NAMES, BAR),
    (TEMPORARIES, BAR, BAR | NAMES_AND_BAR),
    (DOIT, TEMPORARIES, BODY),
    (PATTERN, BINARY | BAR, NAME),
    (KEYWORD_PATTERN, KEYWORD, NAME),
    (KEYWORD_PATTERN, KEYWORD_PATTERN, KEYWORD_PATTERN),
    (METHOD, PATTERN, DOIT),
];

/// The tokens, each as a text.
static TOKENS: [&[u8]; 15] = [
    b"a ", b"3 ", b"k: ", b"+ ", b"| ", b"_ ", b"; ", b". ", b"^ ", b"( ", b") ", b"[ ", b"] ",
    b": ", b"#( ",
];

/// A set of symbols with all that one of them is alone. Each set stands behind those that it names.
fn with_singles(symbols: u64) -> u64 {
    let mut all = symbols;
    for (symbol, set) in &SINGLES {
        if all & *set != 0 {
            all |= *symbol;
        }
    }
    all
}

/// What two spans are together.
fn joined(left: u64, right: u64) -> u64 {
    let mut symbols = 0;
    if left == 0 || right == 0 {
        return symbols;
    }
    for (symbol, first, second) in &PAIRS {
        if left & *first != 0 && right & *second != 0 {
            symbols |= *symbol;
        }
    }
    symbols
}

/// The set of a span, in a table with a row of six for each start.
fn cell(table: &[u64], from: usize, to: usize) -> u64 {
    table
        .get(from.saturating_mul(6).saturating_add(to))
        .copied()
        .unwrap_or(0)
}

/// The symbols that derive all of these tokens.
fn symbols_of(tokens: &[usize]) -> u64 {
    let mut table = [0u64; 36];
    for (at, token) in tokens.iter().enumerate() {
        put(
            &mut table,
            at,
            at.saturating_add(1),
            with_singles(1u64 << (*token).min(14)),
        );
    }
    for size in 2..=tokens.len() {
        for from in 0..=tokens.len() - size {
            let to = from.saturating_add(size);
            let mut symbols = 0;
            for middle in from + 1..to {
                symbols |= joined(cell(&table, from, middle), cell(&table, middle, to));
            }
            put(&mut table, from, to, with_singles(symbols));
        }
    }
    cell(&table, 0, tokens.len())
}

fn put(table: &mut [u64], from: usize, to: usize, symbols: u64) {
    if let Some(cell) = table.get_mut(from.saturating_mul(6).saturating_add(to)) {
        *cell = symbols;
    }
}

/// Asks both of the tokens of this number, in base 15, and fails where they differ.
fn compare(alloc: Global, size: usize, number: usize) -> Result<()> {
    let mut text = Text::empty(alloc);
    let mut tokens = Vec::new(alloc);
    let mut left = number;
    for _ in 0..size {
        tokens.push(left % 15)?;
        text.append(TOKENS[left % 15])?;
        left /= 15;
    }
    let symbols = symbols_of(&tokens);
    ensure!(text.bytes().len() <= 65_535);
    let is_doit = size == 0 || symbols & DOIT != 0;
    let is_method = symbols & METHOD != 0;
    ensure!(
        parse_doit(alloc, &text).is_ok() == is_doit,
        "they differ on the doIt {number}"
    );
    ensure!(
        parse_method(alloc, &text).is_ok() == is_method,
        "they differ on the method {number}"
    );
    Ok(())
}

/// Compares them on every string of so many tokens, four at most.
pub(super) fn line(alloc: Global, size: usize) -> Result<Text> {
    ensure!(size <= 4, "too many tokens");
    let mut count: usize = 1;
    for _ in 0..size {
        count = count.saturating_mul(15);
    }
    for number in 0..count {
        compare(alloc, size, number)?;
    }
    let line = format!(in alloc; "they agree on {count} texts")?;
    Ok(Text::from_bytes(alloc, line.as_bytes())?)
}
