// The kind byte of a literal, decoded by each form's own match: what may stand behind it. The rest is refused.

ghost use Rattle.std.specs.Prelude.{◌≡◌};
ghost use Rattle.literal.specs.Code.{plain_span, rule_span, source_span, span, span_among, unpacked};

use literal::{Kinds, Limits, Ranges};

// Tags from `lowest` to `highest`, numbers from 1 to `most`.
fn range(lowest: u16, highest: u16, most: u16) -> Ranges
    ensures { unpacked result ≡ span lowest highest most }
{
    Ranges((lowest as u64 * 65536 + highest as u64) * 65536 + most as u64)
}

// A source's kinds. The ranges are made before the match, so that it only picks one: kinds come in no order that a processor
// could foresee, and this way it need not.
fn decode_source_kind(lim: Limits, kind: u8) -> Ranges
    ensures { unpacked result ≡ source_span lim kind }
{
    let atom = range(0, 0, lim.atoms);
    let mark = range(1, lim.tags, lim.atoms);
    let refused = range(0, 0, 0);
    match kind {
        0..=1 => atom,
        2..=3 => mark,
        _ => refused,
    }
}

// The kind behind those of atoms and their marks: the rule-defeated mark.
fn decode_rule_kind(lim: Limits, kind: u8) -> Ranges
    ensures { unpacked result ≡ rule_span lim kind }
{
    let rule = range(0, 0, lim.numbers);
    let refused = range(0, 0, 0);
    match kind {
        6 => rule,
        _ => refused,
    }
}

// A plain program's kinds.
fn decode_plain_kind(lim: Limits, kind: u8) -> Ranges
    ensures { unpacked result ≡ plain_span lim kind }
{
    let atom = range(0, 0, lim.atoms);
    let mark = range(1, lim.tags, lim.atoms);
    let rule = decode_rule_kind(lim, kind);
    match kind {
        0..=1 => atom,
        2..=5 => mark,
        _ => rule,
    }
}

// A form's kinds.
pub fn decode_kind(lim: Limits, kind: u8) -> Ranges
    ensures { unpacked result ≡ span_among lim.kinds lim kind }
{
    let kinds = lim.kinds;
    match kinds {
        Kinds::SourceKinds => decode_source_kind(lim, kind),
        Kinds::PlainKinds => decode_plain_kind(lim, kind),
    }
}
