//! Reads lines `EXPRESSION<tab>TEXT` or `EXPRESSION<tab>TEXT<tab>TIMES`, and prints for each whether the expression
//! finds a part of the text: `found` or `none`, or why it is no expression. It is compiled once and matched so many
//! times, for whoever measures; where TIMES is 0 it is only compiled, and the answer is `none`.
#![tactic(auto)]

ghost use Rattle.std.specs.Prelude.{◌≡◌, ◌<◌};

use std::alloc::Global;
use std::io;
use std::marker::Brand;
use std::sync::ledger::{Blank, Ledger};
use usp_base::Steps;
use usp_ere::{EreFault, compile, scratch};

fn match_with<L: Ledger>(
    alloc: Global,
    blank: Blank,
    expression: &[u8],
    text: &[u8],
    times: u32,
) -> Result<bool, EreFault>
    requires name { blank.name ≡ L.name }
    requires parts { blank.parts ≡ L.parts }
    requires some { 0 < blank.parts }
{
    let ere = compile(alloc, expression)?;
    let Ok(mut scratch) = scratch(alloc, &ere) else {
        return Err(EreFault::NoMemory);
    };
    let mut steps = Steps::<L>::new(blank);
    let mut found = false;
    for _ in 0..times {
        found = ere.is_match(text, &mut scratch, &mut steps);
    }
    Ok(found)
}

fn answer(alloc: Global, line: &str) -> Result<bool, EreFault> {
    let (expression, rest) = line.split_once('\t').unwrap_or((line, ""));
    let (text, times) = rest.split_once('\t').unwrap_or((rest, "1"));
    let times = times.parse::<u32>().unwrap_or(1);
    let blank = Blank::new(1);
    match_with::<Brand>(alloc, blank, expression.as_bytes(), text.as_bytes(), times)
}

fn main(rt: HostRuntime) -> io::Result<()> {
    for line in rt.lines(rt.alloc()) {
        match answer(rt.alloc(), line?.as_str()) {
            Ok(true) => println!(rt; "found")?,
            Ok(false) => println!(rt; "none")?,
            Err(EreFault::Syntax { at }) => println!(rt; "Syntax {at}")?,
            Err(EreFault::Undefined { at }) => println!(rt; "Undefined {at}")?,
            Err(EreFault::Repeat { at }) => println!(rt; "Repeat {at}")?,
            Err(EreFault::TooLarge) => println!(rt; "TooLarge")?,
            Err(EreFault::NoMemory) => println!(rt; "NoMemory")?,
        }
    }
    Ok(())
}
