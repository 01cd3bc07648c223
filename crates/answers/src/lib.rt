// The text of an answer: what a call told, behind labels, and lists behind their names, put into a room. Knows no verb.
#![tactic(auto)]

ghost use Rattle.std.specs.Prelude.{◌+◌, ◌*◌, ◌≤◌, length};
ghost use Rattle.text.specs.Puts.{Put};
ghost use Rattle.told.specs.Telling.{tells};
ghost use Rattle.answers.specs.Answers.{said, labelled, spoken, spaced, listed};

use paper::Word;
use text::{next_token, put, put_number};
use told::Numbers;

// Puts values behind their labels, which bars separate.
fn say_values(out: &mut [u8], at: usize, labels: &[u8], values: &[u64]) -> usize
    requires { at + length labels.now + 20 * length values.now ≤ length out.old }
    ensures put { Put out.old at (labelled labels.now values.now) result out.new }
    ensures upper_bound { result ≤ at + length labels.now + 20 * length values.now }
{
    let mut to = at;
    let mut labels = labels;
    for value in values {
        let (label, rest) = next_token(labels, b'|');
        let named = put(out, to, label);
        to = put_number(out, named, *value);
        labels = rest.unwrap_or(&[]);
    }
    to
}

// Puts values behind their labels, or the text alone if there are none.
fn say_labels(out: &mut [u8], at: usize, labels: &[u8], values: &[u64]) -> usize
    requires { at + length labels.now + 20 * length values.now ≤ length out.old }
    ensures put { Put out.old at (said labels.now values.now) result out.new }
    ensures upper_bound { result ≤ at + length labels.now + 20 * length values.now }
{
    if values.is_empty() {
        return put(out, at, labels);
    }
    say_values(out, at, labels, values)
}

// Puts what a call told, its values behind the labels of its verb.
pub fn say(out: &mut [u8], at: usize, labels: &[u8], t: Numbers) -> usize
    requires { at + length labels.now + 100 ≤ length out.old }
    ensures put { Put out.old at (spoken labels.now (tells t)) result out.new }
    ensures upper_bound { result ≤ at + length labels.now + 100 }
{
    let values = [u64::from(t.number), t.a, t.b, t.c];
    let end = 1 + (t.count as usize).min(3);
    // The kinds as C reads them: 0 an answer, 1 "more than the cap".
    match t.kind {
        0 => say_labels(out, at, labels, &values[1..end]),
        1 => say_labels(out, at, b"more tried | radius ", &values[1..end]),
        _ => say_labels(out, at, b"refused | ", &values[..end]),
    }
}

// Puts numbers, each behind a space.
fn say_items(out: &mut [u8], at: usize, xs: &[Word]) -> usize
    requires { at + 21 * length xs.now ≤ length out.old }
    ensures put { Put out.old at (spaced xs.now) result out.new }
    ensures upper_bound { result ≤ at + 21 * length xs.now }
{
    let mut to = at;
    for x in xs {
        let next = put(out, to, b" ");
        to = put_number(out, next, *x as u64);
    }
    to
}

// Puts a list behind its name: how many there are, and each.
pub fn say_list(out: &mut [u8], at: usize, name: &[u8], xs: &[Word]) -> usize
    requires { at + length name.now + 20 + 21 * length xs.now ≤ length out.old }
    ensures put { Put out.old at (listed name.now xs.now) result out.new }
    ensures upper_bound { result ≤ at + length name.now + 20 + 21 * length xs.now }
{
    let named = put(out, at, name);
    let counted = put_number(out, named, xs.len() as u64);
    say_items(out, counted, xs)
}
