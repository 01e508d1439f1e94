// The text of what a doIt comes to.
ghost use Rattle.std.specs.Prelude.{◌≡◌, ◌++◌, ◌∷◌, [], IfOk, if◌then◌else◌};
ghost use Rattle.s80_prims.specs.Known.{AreKnown, HasKernel};
ghost use Rattle.s80_print.specs.Outcome.{HasKnownAnswer, line_end, outcome_text, stop_text};

use s80_base::{OutOfMemory, Side, Text};
use s80_class::ClassTable;
use s80_prims::{End, Outcome, Stop, print_value};
use std::alloc::Global;

/// What a doIt wrote, on lines of its own, and its answer or why it was stopped, without a line feed at the end.
pub fn outcome_text(
    alloc: Global,
    classes: &ClassTable,
    outcome: &Outcome,
) -> Result<Text, OutOfMemory>
    requires kernel { HasKernel classes.now }
    requires answer { HasKnownAnswer classes.now outcome.now.objects outcome.now.end }
    requires objects { AreKnown classes.now outcome.now.objects }
    ensures { IfOk result (λ text. text ≡ outcome_text classes.now outcome.now) }
{
    let mut text = outcome.transcript.copy(alloc)?;
    if !is_ended(text.bytes()) {
        text.append(b"\n")?;
    }
    match &outcome.end {
        End::Answer(value) => {
            text.append(b"=> ")?;
            let value = print_value(alloc, classes, &outcome.objects, *value)?;
            text.append(value.bytes())?;
        }
        End::Stopped(stop) => text.append(stop_text(alloc, stop)?.bytes())?,
    }
    Ok(text)
}

// Whether nothing has to stand before the next line.
fn is_ended(bytes: &[u8]) -> bool
    ensures { line_end bytes.now ≡ if result then [] else 10 ∷ [] }
{
    match bytes {
        [.., last] => *last == b'\n',
        [] => true,
    }
}

fn stop_text(alloc: Global, stop: &Stop) -> Result<Text, OutOfMemory>
    ensures { IfOk result (λ text. text ≡ stop_text stop.now) }
{
    match stop {
        Stop::Error(text) => named(alloc, b"stopped 1 error ", text),
        Stop::NotUnderstood(class, side, selector) => {
            not_understood_text(alloc, class, *side, selector)
        }
        Stop::NonBoolean => Text::from_bytes(alloc, b"stopped 3 not boolean"),
        Stop::CannotReturn => Text::from_bytes(alloc, b"stopped 4 cannot return"),
        Stop::BlockActive => Text::from_bytes(alloc, b"stopped 5 block active"),
        Stop::ObjectsFull(held) => {
            let text = format!(in alloc; "stopped 6 objects full {held}")?;
            Text::from_bytes(alloc, text.as_bytes())
        }
        Stop::Deep => Text::from_bytes(alloc, b"stopped 7 too deep"),
        Stop::TranscriptFull => Text::from_bytes(alloc, b"stopped 8 transcript full"),
        Stop::Budget(budget) => {
            let text = format!(in alloc; "stopped 9 budget {budget}")?;
            Text::from_bytes(alloc, text.as_bytes())
        }
    }
}

fn not_understood_text(
    alloc: Global,
    class: &Text,
    side: Side,
    selector: &Text,
) -> Result<Text, OutOfMemory>
    ensures { IfOk result (λ text. text ≡ stop_text (Stop.NotUnderstood class.now side selector.now)) }
{
    let mut text = named(alloc, b"stopped 2 not understood ", class)?;
    match side {
        Side::Instance => text.append(b" ")?,
        Side::Class => text.append(b" class ")?,
    }
    text.append(selector.bytes())?;
    Ok(text)
}

// Words, and a text behind them.
fn named(alloc: Global, words: &[u8], text: &Text) -> Result<Text, OutOfMemory>
    ensures { IfOk result (λ all. all ≡ words.now ++ text.now) }
{
    let mut all = Text::from_bytes(alloc, words)?;
    all.append(text.bytes())?;
    Ok(all)
}
