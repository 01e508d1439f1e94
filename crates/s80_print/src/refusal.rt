// The texts of refusals.
ghost use Rattle.std.specs.Prelude.{◌≡◌, ◌++◌, codes, decimal, IfOk};
ghost use Rattle.s80_print.specs.Refusal.{syntax_word, fit_word, many_word, spec_of, refusal_text};

use s80_base::{OutOfMemory, Side, Text};
use s80_form::{FitWord, ManyKind, Refusal, SyntaxKind};
use std::alloc::Global;

/// The text that says why an item is refused, without a line feed.
pub fn refusal_text(alloc: Global, refusal: &Refusal) -> Result<Text, OutOfMemory>
    ensures { IfOk result (λ text. text ≡ refusal_text refusal.now) }
{
    match refusal {
        Refusal::Unended => Text::from_bytes(alloc, b"refused 1 unended"),
        Refusal::Syntax(kind, place) => syntax_text(alloc, *kind, *place),
        Refusal::TooLarge(kind, count) => too_large_text(alloc, *kind, *count),
        Refusal::UnknownClass(name) => named(alloc, b"refused 4 unknown class ", name),
        Refusal::KernelClass(name) => named(alloc, b"refused 5 kernel class ", name),
        Refusal::HasSubclasses(name) => named(alloc, b"refused 6 has subclasses ", name),
        Refusal::Cycle(name) => named(alloc, b"refused 7 cycle ", name),
        Refusal::Duplicate(name) => named(alloc, b"refused 8 duplicate ", name),
        Refusal::BadName(name) => named(alloc, b"refused 9 bad name ", name),
        Refusal::NoSelector(name, side, selector) => {
            no_selector_text(alloc, name, *side, selector)
        }
        Refusal::TooMany(kind, count) => too_many_text(alloc, *kind, *count),
        Refusal::LogFull(length) => log_full_text(alloc, *length),
        Refusal::NoSection(head) => named(alloc, b"refused 13 no section ", head),
    }
}

fn syntax_text(alloc: Global, kind: SyntaxKind, place: u32) -> Result<Text, OutOfMemory>
    ensures { IfOk result (λ text. text ≡ refusal_text (Refusal.Syntax kind place)) }
{
    let kind = syntax_word(kind);
    let text = format!(in alloc; "refused 2 {kind} at {place}")?;
    Text::from_bytes(alloc, text.as_bytes())
}

fn too_large_text(alloc: Global, kind: FitWord, count: u64) -> Result<Text, OutOfMemory>
    ensures { IfOk result (λ text. text ≡ refusal_text (Refusal.TooLarge kind count)) }
{
    let kind = fit_word(kind);
    let text = format!(in alloc; "refused 3 too large {kind} {count}")?;
    Text::from_bytes(alloc, text.as_bytes())
}

fn no_selector_text(
    alloc: Global,
    name: &Text,
    side: Side,
    selector: &Text,
) -> Result<Text, OutOfMemory>
    ensures { IfOk result (λ text. text ≡ refusal_text (Refusal.NoSelector name.now side selector.now)) }
{
    let mut text = named(alloc, b"refused 10 no selector ", name)?;
    match side {
        Side::Instance => text.append(b" ")?,
        Side::Class => text.append(b" class ")?,
    }
    text.append(selector.bytes())?;
    Ok(text)
}

fn too_many_text(alloc: Global, kind: ManyKind, count: u64) -> Result<Text, OutOfMemory>
    ensures { IfOk result (λ text. text ≡ refusal_text (Refusal.TooMany kind count)) }
{
    let kind = many_word(kind);
    let text = format!(in alloc; "refused 11 too many {kind} {count}")?;
    Text::from_bytes(alloc, text.as_bytes())
}

fn log_full_text(alloc: Global, length: u64) -> Result<Text, OutOfMemory>
    ensures { IfOk result (λ text. text ≡ refusal_text (Refusal.LogFull length)) }
{
    let text = format!(in alloc; "refused 12 log full {length}")?;
    Text::from_bytes(alloc, text.as_bytes())
}

/// Words, and a name behind them.
fn named(alloc: Global, words: &[u8], name: &Text) -> Result<Text, OutOfMemory>
    ensures { IfOk result (λ text. text ≡ words.now ++ name.now) }
{
    let mut text = Text::from_bytes(alloc, words)?;
    text.append(name.bytes())?;
    Ok(text)
}

fn syntax_word(kind: SyntaxKind) -> &'static str
    ensures { result.now ≡ syntax_word kind }
{
    match kind {
        SyntaxKind::UnendedToken => "unended-token",
        SyntaxKind::BadByte => "bad-byte",
        SyntaxKind::BadNumber => "bad-number",
        SyntaxKind::Unexpected => "unexpected",
        SyntaxKind::NotAssignable => "not-assignable",
        SyntaxKind::Nested => "nested",
    }
}

fn fit_word(kind: FitWord) -> &'static str
    ensures { result.now ≡ fit_word kind }
{
    match kind {
        FitWord::Chunk => "chunk",
        FitWord::Literals => "literals",
        FitWord::Temporaries => "temporaries",
        FitWord::Stack => "stack",
        FitWord::Weight => "weight",
    }
}

fn many_word(kind: ManyKind) -> &'static str
    ensures { result.now ≡ many_word kind }
{
    match kind {
        ManyKind::Classes => "classes",
        ManyKind::InstanceVariables => "instance variables",
        ManyKind::ClassVariables => "class variables",
        ManyKind::ClassSideVariables => "class-side variables",
        ManyKind::Pools => "pools",
        ManyKind::Methods => "methods",
        ManyKind::BitsVariables => "bits variables",
    }
}
