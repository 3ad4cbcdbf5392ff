//! An iterator over the lines of lists, with their numbers.
ghost use Rattle.std.specs.Prelude.{◌+◌, ◌^◌, ◌<◌, length};

use crate::text_lines::TextLines;
use crate::texts::WholeLists;
use program::command_line::text_at;

/// A line of a list.
#[derive(Clone, Copy, Debug)]
pub(crate) struct Line<'a> {
    /// The index of the list among the lists.
    pub list: usize,
    /// The name of the list.
    pub name: &'a str,
    /// The number of the line, from 1.
    pub number: usize,
    /// The line, without its line ending.
    pub text: &'a [u8],
}

/// The lines of lists that are still to come.
#[derive(Drop)]
pub(crate) struct NumberedLines<'a> {
    // The names of all lists.
    names: &'a [String],
    // The bytes of the lists after the current one; the first of them has the index `next`.
    texts: &'a [Vec<u8>],
    next: usize,
    // The index of the current list, how many of its lines were returned, and its other lines.
    list: usize,
    number: usize,
    lines: TextLines<'a>,

    ghost few_lists: { next + length texts.now < 2 ^ 64 },
    ghost few_lines: { number + length lines.text.now < 2 ^ 64 },
}

impl<'a> NumberedLines<'a> {
    ghost use Rattle.std.specs.Prelude.{◌≡◌, ◌∷◌, [], map, IfSome, MatchOption};
    ghost use Rattle.program.specs.Reported.{name_at};
    ghost use Rattle.cidr_merge.specs.NumberedLines.{numbered_lines};
    ghost use Rattle.cidr_merge.specs.Private.LinesLeft.{as_numbered, lines_left};

    /// Returns an iterator over all lines of lists.
    pub(crate) fn of(lists: &WholeLists<'a>) -> NumberedLines<'a>
        ensures lines { lines_left result
            ≡ numbered_lines 0 (map (λ text. text.items) lists.now.texts.now) }
        ensures names { result.names.now ≡ lists.now.names.now }
    {
        NumberedLines {
            names: lists.names,
            texts: lists.texts,
            next: 0,
            list: 0,
            number: 0,
            lines: TextLines::of(b"".as_slice()),
        }
    }

    /// Returns the next line.
    pub(crate) fn next(&mut self) -> Option<Line<'a>>
        ensures line { MatchOption result (lines_left self.old ≡ [])
            (λ line. lines_left self.old ≡ as_numbered line ∷ lines_left self.new) }
        ensures named { IfSome result
            (λ line. line.name.now ≡ name_at self.old.names.now line.list) }
        ensures names { self.new.names.now ≡ self.old.names.now }
    {
        'lists: loop {
            if let Some(text) = self.lines.next() {
                self.number += 1;
                return Some(Line {
                    list: self.list,
                    name: text_at(self.names, self.list),
                    number: self.number,
                    text,
                });
            }
            let Some((text, texts)) = self.texts.split_first() else {
                return None;
            };
            self.texts = texts;
            self.list = self.next;
            self.next += 1;
            self.number = 0;
            self.lines = TextLines::of(text.as_slice());
        }
    }
}
