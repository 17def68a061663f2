// The lines of a settings text before its rules, read and written.
ghost use Rattle.std.specs.Prelude.{◌≡◌, ◌≤◌, ◌<◌, length};
ghost use Rattle.lines.specs.Wrote.{Wrote};
ghost use Rattle.settings.specs.Head.{form_line, match_line, lines_more};
ghost use Rattle.settings.specs.Kept.{head_of};
ghost use Rattle.settings.specs.Refused.{head_told, head_values};
ghost use Rattle.settings.specs.SettingsText.{form_place, match_in, head_lines};

use crate::matcher::{matching_at, matching_number};
use crate::refusal::{Refused, check_line};
use forms::chain::{Lined, begin, number_after, word_after};
use lines::lengths::{number_line_len, word_line_len};
use lines::put::{put_number_line, put_word_line};
use tables::rules::{TopicAction, action_at, action_number};
use topics::matching::Matching;

// Their values.
#[derive(Clone, Copy, Debug, PartialEq, Eq)]
pub struct HeadValues {
    pub form: u32,
    pub default_action: TopicAction,
    pub matching: Matching,
    pub threshold: u8,
    pub window: u64,
    pub rules: u16,
}

// What they gave: the values, how many lines these are and the place after them, where the rules begin.
#[derive(Clone, Copy, Debug, PartialEq, Eq)]
pub(crate) struct HeadFound {
    pub values: HeadValues,
    pub line: u64,
    pub next: usize,
}

// `form=1|2`: another word is 29.
fn form_line(text: &[u8]) -> Lined
    ensures { result ≡ form_line text.now }
{
    let form = word_after(text, begin(0), 0, b"form=", b"1|2");
    if form.number != 23 {
        return form;
    }
    Lined {
        number: 29,
        line: form.line,
        value: form.value,
        from: form.from,
        to: form.to,
        next: form.next,
    }
}

// `match=`, which the second form has; in the first one the line before it stays the last. The form is told by its place among the words.
fn match_line(text: &[u8], place: u64, before: Lined) -> Lined
    ensures { result ≡ match_line text.now place before }
{
    if place == 1 {
        return word_after(text, before, 2, b"match=", b"port|standard");
    }
    if before.number != 0 {
        return before;
    }
    Lined {
        number: before.number,
        line: before.line,
        value: 0,
        from: before.from,
        to: before.to,
        next: before.next,
    }
}

// How many lines more a form has than the first one, by its place.
fn lines_more(place: u64) -> u32
    ensures value { result ≡ lines_more place }
    ensures few { result ≤ 1 }
{
    if place == 1 {
        return 1;
    }
    0
}

// They are read one after another, with one test at the end.
pub(crate) fn read_head(text: &[u8]) -> Result<HeadFound, Refused>
    ensures { head_told result ≡ head_of (head_lines.read text.now 0 0) }
{
    let form = form_line(text);
    let more = lines_more(form.value);
    let default = word_after(text, form, 1, b"default=", b"allow|block");
    let matched = match_line(text, form.value, default);
    let threshold = number_after(text, matched, 2 + more, b"threshold=", 2, 16);
    let window = number_after(text, threshold, 3 + more, b"window=", 1000000, 600000000);
    let rules = number_after(text, window, 4 + more, b"rules=", 0, 32);
    let line = 1 + u64::from(rules.line);
    check_line(rules.number, line)?;
    Ok(HeadFound {
        values: HeadValues {
            form: 1 + form.value as u32,
            default_action: action_at(default.value),
            matching: matching_at(matched.value),
            threshold: threshold.value as u8,
            window: window.value,
            rules: rules.value as u16,
        },
        line,
        next: rules.next,
    })
}

// A form's place among the words of those that are known.
fn form_place(form: u32) -> usize
    ensures { result ≡ form_place form }
{
    form.saturating_sub(1) as usize
}

// `match=` in a form, written into a lent buffer from `at` on, or nothing.
fn put_match(out: &mut [u8], at: usize, form: u32, matching: Matching) -> usize
    ensures { Wrote out.old out.new at ((match_in form).text matching) result }
{
    if form != 2 {
        return at;
    }
    let place = usize::from(matching_number(matching));
    put_word_line(out, at, b"match=", b"port|standard", place)
}

// How many bytes that is.
fn match_len(form: u32, matching: Matching) -> usize
    ensures value { result ≡ length ((match_in form).text matching) }
    ensures short { result ≤ 15 }
{
    if form != 2 {
        return 0;
    }
    let place = usize::from(matching_number(matching));
    word_line_len(b"match=", b"port|standard", place)
}

// They are written into a lent buffer, from `at` on.
pub(crate) fn put_head(out: &mut [u8], at: usize, head: &HeadValues) -> usize
    ensures { Wrote out.old out.new at (head_lines.text (head_values head.now)) result }
{
    let action = usize::from(action_number(head.default_action));
    let a = put_word_line(out, at, b"form=", b"1|2", form_place(head.form));
    let b = put_word_line(out, a, b"default=", b"allow|block", action);
    let c = put_match(out, b, head.form, head.matching);
    let d = put_number_line(out, c, b"threshold=", u64::from(head.threshold));
    let e = put_number_line(out, d, b"window=", head.window);
    put_number_line(out, e, b"rules=", u64::from(head.rules))
}

// How many bytes they are.
pub(crate) fn head_len(head: &HeadValues) -> usize
    ensures value { result ≡ length (head_lines.text (head_values head.now)) }
    ensures short { result ≤ 200 }
{
    let action = usize::from(action_number(head.default_action));
    let a = word_line_len(b"form=", b"1|2", form_place(head.form));
    let b = word_line_len(b"default=", b"allow|block", action);
    let c = match_len(head.form, head.matching);
    let d = number_line_len(b"threshold=", u64::from(head.threshold));
    let e = number_line_len(b"window=", head.window);
    let f = number_line_len(b"rules=", u64::from(head.rules));
    a + b + c + d + e + f
}
