//! The pieces of the text form of Prometheus, each appended to a text.
ghost use Rattle.std.specs.Prelude.{◌≡◌, ◌++◌, OnOk, decimal};
ghost use Rattle.std.specs.Fmt.{signed_decimal};
ghost use Rattle.status_page.specs.Metrics.{label_octet, label_text, suffix, metric_text, kind_text, header_text};

use crate::fields::MetricKind;
use std::alloc::AllocError;

/// Appends a piece of text.
pub(crate) fn push(text: &mut Vec<u8>, piece: &str) -> Result<(), AllocError>
    ensures { OnOk result (text.new.items ≡ text.old.items ++ piece.now) }
{
    text.extend_from_slice(piece.as_bytes())
}

/// Appends a number in decimal digits.
pub(crate) fn push_number(text: &mut Vec<u8>, number: u64) -> Result<(), AllocError>
    ensures { OnOk result (text.new.items ≡ text.old.items ++ decimal number) }
{
    let mut digits = itoa::Buffer::new();
    push(text, digits.format(number))
}

/// Appends a number in decimal digits, with a minus sign if it is negative.
pub(crate) fn push_signed(text: &mut Vec<u8>, number: i64) -> Result<(), AllocError>
    ensures { OnOk result (text.new.items ≡ text.old.items ++ signed_decimal number) }
{
    let mut digits = itoa::Buffer::new();
    push(text, digits.format(number))
}

/// Appends an octet of a label's value. A backslash, a quotation mark and a line feed are escaped.
fn push_label_octet(text: &mut Vec<u8>, octet: u8) -> Result<(), AllocError>
    ensures { OnOk result (text.new.items ≡ text.old.items ++ label_octet octet) }
{
    match octet {
        b'\\' => push(text, "\\\\"),
        b'"' => push(text, "\\\""),
        b'\n' => push(text, "\\n"),
        _ => text.extend_from_slice(&[octet]),
    }
}

/// Appends the value of a label, with its escapes.
#[tactic(auto, unfolding(crate::specs::Metrics::label_text))]
pub(crate) fn push_label(text: &mut Vec<u8>, value: &str) -> Result<(), AllocError>
    ensures { OnOk result (text.new.items ≡ text.old.items ++ label_text value.now) }
{
    let octets = value.as_bytes();
    for octet in octets {
        push_label_octet(text, *octet)?;
    }
    Ok(())
}

/// Appends the name of a metric: the number `key` of the group `group`.
#[tactic(auto, unfolding(crate::specs::Metrics::metric_text))]
pub(crate) fn push_metric(
    text: &mut Vec<u8>,
    group: &str,
    key: &str,
    kind: MetricKind,
) -> Result<(), AllocError>
    ensures { OnOk result (text.new.items ≡ text.old.items ++ metric_text group.now key.now kind) }
{
    push(text, "darbexum_")?;
    push(text, group)?;
    push(text, key)?;
    push(text, suffix(kind))
}

/// Appends the two lines before the samples of a metric: its description and its kind.
#[tactic(auto, unfolding(crate::specs::Metrics::header_text))]
pub(crate) fn push_header(
    text: &mut Vec<u8>,
    group: &str,
    key: &str,
    kind: MetricKind,
    help: &str,
) -> Result<(), AllocError>
    ensures { OnOk result (text.new.items ≡ text.old.items ++ header_text group.now key.now kind help.now) }
{
    push(text, "# HELP ")?;
    push_metric(text, group, key, kind)?;
    push(text, " ")?;
    push(text, help)?;
    push(text, "\n# TYPE ")?;
    push_metric(text, group, key, kind)?;
    push(text, kind_text(kind))
}

/// Returns the end of a metric's name.
// Prometheus wants names of counters to end in `_total`.
fn suffix(kind: MetricKind) -> &'static str
    ensures { result.now ≡ suffix kind }
{
    match kind {
        MetricKind::Counter => "_total",
        MetricKind::Gauge => "",
    }
}

/// Returns the end of the line with a metric's kind.
fn kind_text(kind: MetricKind) -> &'static str
    ensures { result.now ≡ kind_text kind }
{
    match kind {
        MetricKind::Counter => " counter\n",
        MetricKind::Gauge => " gauge\n",
    }
}
