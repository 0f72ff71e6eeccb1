//! A playlist line by line.
ghost use Rattle.std.specs.Prelude.{◌≡◌, ◌&&◌};
ghost use Rattle.std.specs.Option.{is_some};
ghost use Rattle.usp_http.specs.Digits.{are_digits};
ghost use Rattle.usp_player.specs.ListLines.{list_line_of, list_lines_of};
ghost use Rattle.usp_player.specs.Lists.{duration_of, is_duration, next_uri, target_of};
ghost use Rattle.usp_player.specs.Steps.{Adds, nothing_read, with_duration, with_line, with_target, with_uri};

use crate::limits::{MAX_SEGMENTS, MAX_TARGET};
use crate::line::{Line, list_line_of};
use crate::{ListFault, Segment};
use std::alloc::Global;
use std::marker::Model;
use usp_base::{Octets, cut_at, first_line};
use usp_http::{are_digits, read_digits};

/// What was read of the lines so far.
#[derive(Drop)]
pub(crate) struct Reader {
    pub target: Option<u64>,
    /// That of the next URI.
    pub duration: Option<Octets>,
    pub segments: Vec<Segment>,
    pub ended: bool,
}

impl Model for Reader {
    ghost use Rattle.usp_player.specs.SoFar.{SoFar, so_far};

    ghost Value = { SoFar };

    ghost view = { λ r. so_far r.target r.duration r.segments.items r.ended };
}

fn target_of(digits: &[u8]) -> Option<u64>
    ensures { result ≡ target_of digits.now }
{
    read_digits(digits, MAX_TARGET)
}

// What stands in front of the title.
fn duration_of(text: &[u8]) -> &[u8]
    ensures { result.now ≡ duration_of text.now }
{
    match cut_at(text, b',') {
        Some((front, _)) => front,
        None => text,
    }
}

// Digits, or digits, a point and digits.
fn is_duration(text: &[u8]) -> bool
    ensures { result ≡ is_duration text.now }
{
    match cut_at(text, b'.') {
        Some((whole, part)) => are_digits(whole) && are_digits(part),
        None => are_digits(text),
    }
}

// A URI comes before the next `#EXTINF:` and before the end.
fn has_uri(text: &[u8]) -> bool
    ensures { result ≡ is_some (next_uri (list_lines_of text.now)) }
{
    let mut rest = text;
    while !rest.is_empty() {
        let (line, after) = first_line(rest);
        match list_line_of(line) {
            Line::Uri(_) => return true,
            Line::Inf(_) => return false,
            Line::Target(_) | Line::Range | Line::End | Line::Other => {}
        }
        rest = after;
    }
    false
}

impl Reader {
    /// Nothing was read.
    pub fn new(alloc: Global) -> Reader
        ensures { result ≡ nothing_read }
    {
        Reader {
            target: None,
            duration: None,
            segments: Vec::new(alloc),
            ended: false,
        }
    }

    fn read_target(&mut self, number: usize, digits: &[u8]) -> Result<(), ListFault>
        ensures { Adds (with_target number self.old.target (target_of digits.now) self.old)
            self.new result }
    {
        if self.target.is_some() {
            return Err(ListFault::BadTarget { line: number });
        }
        match target_of(digits) {
            Some(target) => {
                self.target = Some(target);
                Ok(())
            }
            None => Err(ListFault::BadTarget { line: number }),
        }
    }

    fn read_duration(
        &mut self,
        alloc: Global,
        number: usize,
        duration: &[u8],
        rest: &[u8],
    ) -> Result<(), ListFault>
        ensures { Adds (with_duration number
            (is_duration duration.now && is_some (next_uri (list_lines_of rest.now)))
            duration.now self.old) self.new result }
    {
        if is_duration(duration) && has_uri(rest) {
            self.duration = Some(Octets::of(Vec::from_slice(alloc, duration)?));
            Ok(())
        } else {
            Err(ListFault::BadInf { line: number })
        }
    }

    fn read_uri(&mut self, alloc: Global, number: usize, text: &[u8]) -> Result<(), ListFault>
        ensures { Adds (with_uri number self.old.duration text.now self.old) self.new result }
    {
        let Some(duration) = self.duration.take() else {
            return Err(ListFault::NoInf { line: number });
        };
        if self.segments.len() >= MAX_SEGMENTS {
            return Err(ListFault::TooMany { line: number });
        }
        let uri = Octets::of(Vec::from_slice(alloc, text)?);
        self.segments.push(Segment { duration, uri })?;
        Ok(())
    }

    /// Reads a line, where these lines stand behind it.
    pub fn read_line(
        &mut self,
        alloc: Global,
        number: usize,
        line: &[u8],
        rest: &[u8],
    ) -> Result<(), ListFault>
        ensures { Adds (with_line number (list_line_of line.now) (list_lines_of rest.now) self.old)
            self.new result }
    {
        match list_line_of(line) {
            Line::Inf(text) => self.read_duration(alloc, number, duration_of(text), rest),
            Line::Target(digits) => self.read_target(number, digits),
            Line::Range => Err(ListFault::ByteRange { line: number }),
            Line::End => {
                self.ended = true;
                Ok(())
            }
            Line::Uri(text) => self.read_uri(alloc, number, text),
            Line::Other => Ok(()),
        }
    }
}
