ghost use Rattle.std.specs.Prelude.{◌≡◌, ◌+◌, ◌-◌, ◌<◌, ◌^◌, ◌∷◌, [], None, Some, false, length, IfErr, IfNone, IfOk, IfSome};
ghost use Rattle.std.specs.Option.{option_copied};
ghost use Rattle.std.specs.Str.Lines.{strip_carriage_return};
ghost use Rattle.hal_base.specs.Lines.{lines_in};
ghost use Rattle.schedule_text.specs.Lines as spec;
ghost use Rattle.schedule_text.specs.Lines.{first_of, lines_behind, pieces_of, two_of};
ghost use Rattle.schedule_text.specs.steps.Heads.{IsUnsaid};
ghost use Rattle.schedule_text.specs.steps.Pieces.{begins_with_space, pieces_left};

use crate::fault::ScheduleWhat;
use crate::words::{Worded, event_named, number_of};
use memchr::memchr;

/// What is left of a text, and how many lines stand before that.
#[derive(Clone, Copy)]
pub(crate) struct Lines<'a> {
    pub(crate) left: &'a [u8],
    pub(crate) taken: u64,
}

impl<'a> Lines<'a> {
    /// Takes the next line, without its end and one CR before it. Its number is that of the lines taken then.
    pub(crate) fn take(&mut self) -> Option<&'a [u8]>
        requires { self.old.taken + length self.old.left.now < 2 ^ 64 - 1 }
        ensures none { IfNone result (lines_behind self.old.taken self.old.left.now ≡ []) }
        ensures some { IfSome result (λ line. lines_behind self.old.taken self.old.left.now ≡ (self.new.taken, line.now) ∷ lines_behind self.new.taken self.new.left.now) }
        ensures count { IfSome result (λ _. self.new.taken ≡ self.old.taken + 1) }
        ensures shorter { IfSome result (λ _. length self.new.left.now < length self.old.left.now) }
        ensures room { self.new.taken + length self.new.left.now < 2 ^ 64 - 1 }
    {
        let (line, rest) = cut_line(self.left)?;
        self.left = rest;
        self.taken += 1;
        Some(without_carriage_return(line))
    }

    /// Takes the next line, if it is no event line.
    pub(crate) fn take_head_line(&mut self) -> Option<&'a [u8]>
        requires { self.old.taken + length self.old.left.now < 2 ^ 64 - 1 }
        ensures none { IfNone result (spec.head_lines (lines_behind self.old.taken self.old.left.now) ≡ []) }
        ensures kept { IfNone result (self.new ≡ self.old) }
        ensures some { IfSome result (λ line. lines_behind self.old.taken self.old.left.now ≡ (self.new.taken, line.now) ∷ lines_behind self.new.taken self.new.left.now) }
        ensures head { IfSome result (λ line. spec.is_event_line line.now ≡ false) }
        ensures count { IfSome result (λ _. self.new.taken ≡ self.old.taken + 1) }
        ensures shorter { IfSome result (λ _. length self.new.left.now < length self.old.left.now) }
        ensures room { self.new.taken + length self.new.left.now < 2 ^ 64 - 1 }
    {
        let mut ahead = *self;
        let line = ahead.take()?;
        if is_event_line(line) {
            return None;
        }
        *self = ahead;
        Some(line)
    }

    /// An estimate of the number of lines that are left, so that a list need not grow.
    pub(crate) fn count(&self) -> usize {
        self.left.iter().filter(|byte| **byte == b'\n').count()
    }
}

/// The first line, and what stands behind its LF. `None` where no line is left.
fn cut_line(text: &[u8]) -> Option<(&[u8], &[u8])>
    ensures none { IfNone result (lines_in text.now ≡ []) }
    ensures some { IfSome result (λ parts. lines_in text.now ≡ parts.0.now ∷ lines_in parts.1.now) }
    ensures shorter { IfSome result (λ parts. length parts.1.now < length text.now) }
{
    if text.is_empty() {
        return None;
    }
    match memchr(b'\n', text) {
        Some(at) => Some((&text[..at], &text[at + 1..])),
        None => Some((text, &[])),
    }
}

fn without_carriage_return(line: &[u8]) -> &[u8]
    ensures { result.now ≡ strip_carriage_return line.now }
{
    match line {
        [front @ .., b'\r'] => front,
        _ => line,
    }
}

/// Whether the line says nothing: it is empty, or begins with `#`.
pub(crate) fn is_skipped(line: &[u8]) -> bool
    ensures { result ≡ spec.is_skipped line.now }
{
    match line {
        [] => true,
        [byte, ..] => *byte == b'#',
    }
}

/// Whether the first word of the line is that of an event.
pub(crate) fn is_event_line(line: &[u8]) -> bool
    ensures { result ≡ spec.is_event_line line.now }
{
    let (word, _) = cut_piece(behind_spaces(line));
    event_named(word).is_some()
}

/// A line without the spaces at its front.
fn behind_spaces(line: &[u8]) -> &[u8]
    ensures same { first_of (pieces_of result.now) ≡ first_of (pieces_of line.now) }
    ensures front { begins_with_space result.now ≡ false }
{
    let mut left = line;
    'spaces: while let [b' ', rest @ ..] = left {
        left = rest;
    }
    left
}

/// The first piece, and what stands behind its space, if there is one.
fn cut_piece(line: &[u8]) -> (&[u8], Option<&[u8]>)
    ensures { pieces_of line.now ≡ result.0.now ∷ pieces_left (option_copied result.1) }
{
    match memchr(b' ', line) {
        Some(at) => (&line[..at], Some(&line[at + 1..])),
        None => (line, None),
    }
}

/// The two words of a line that has nothing but these and one space between.
pub(crate) fn two_words(line: &[u8]) -> Option<(&[u8], &[u8])>
    ensures none { IfNone result (two_of (pieces_of line.now) ≡ None) }
    ensures some { IfSome result (λ words. two_of (pieces_of line.now) ≡ Some (words.0.now, words.1.now)) }
{
    let (word, rest) = cut_piece(line);
    let (number, others) = cut_piece(rest?);
    if number.is_empty() {
        return None;
    }
    match others {
        Some(_) => None,
        None => Some((word, number)),
    }
}

/// What the first of a line's two words stands for, and the number that is the second.
pub(crate) fn said<T: Worded + Drop>(line: &[u8]) -> Result<(T, u32), ScheduleWhat>
    ensures found { IfOk result (λ it. spec.said T.of_word (two_of (pieces_of line.now)) ≡ Some (it.0, Some it.1)) }
    ensures fault { IfErr result (IsUnsaid (spec.said T.of_word (two_of (pieces_of line.now)))) }
{
    let Some((word, number)) = two_words(line) else {
        return Err(ScheduleWhat::BadWord);
    };
    let Some(it) = T::named(word) else {
        return Err(ScheduleWhat::BadWord);
    };
    match number_of(number) {
        Some(number) => Ok((it, number)),
        None => Err(ScheduleWhat::BadNumber),
    }
}
