//! The text is read in one pass, with the open groups on a stack.
ghost use Rattle.std.specs.Prelude.{◌≡◌, ◌<◌, length, IfOk, IfErr, OnErr, IsTrue, ◌↔◌};
ghost use Rattle.usp_ere.specs.Faults.{are_counts};
ghost use Rattle.usp_ere.specs.Marks.{StepsTo, IsFaultOf};

use crate::fault::EreFault;
use crate::limits::MAX_COUNT;
use crate::line::{Last, Line, finish_list, fresh_line, push_piece};
use crate::tokens::Mark;
use crate::tree::Tree;
use std::alloc::Global;
use std::mem;

/// The list that is read, and the lists around it.
#[derive(Drop)]
pub struct State {
    pub now: Line,
    pub around: Vec<Line>,
}

/// Whether the counts are in order and at most `MAX_COUNT`.
fn counts(least: u16, most: Option<u16>) -> bool
    ensures { result ≡ are_counts least most }
{
    match most {
        None => least <= MAX_COUNT,
        Some(most) => least <= most && most <= MAX_COUNT,
    }
}

/// The state behind a token at a place.
pub fn step(alloc: Global, at: usize, mut state: State, mark: Mark) -> Result<State, EreFault>
    ensures next { IfOk result (λ next. StepsTo state mark next) }
    ensures fault { IfErr result (λ fault. IsFaultOf at state mark fault) }
{
    match mark {
        Mark::Atom(tree, _) => {
            push_piece(&mut state.now, Last::Open(tree))?;
            Ok(state)
        }
        Mark::Anchor(tree) => {
            push_piece(&mut state.now, Last::Done(tree))?;
            Ok(state)
        }
        Mark::Times(least, most, _) => repeat(alloc, at, state, least, most),
        Mark::Brace => match state.now.last {
            Last::Open(_) => Err(EreFault::Syntax { at }),
            _ => Err(EreFault::Undefined { at }),
        },
        Mark::Opening => {
            let State { now, mut around } = state;
            around.push(now)?;
            Ok(State {
                now: fresh_line(alloc, None),
                around,
            })
        }
        Mark::Closing => close(alloc, at, state),
        Mark::Bar => {
            let State { now, around } = state;
            match finish_list(alloc, now)? {
                None => Err(EreFault::Undefined { at }),
                Some(list) => Ok(State {
                    now: fresh_line(alloc, Some(list)),
                    around,
                }),
            }
        }
        Mark::Bad(fault) => Err(fault),
    }
}

/// A repeat of the last piece.
fn repeat(
    alloc: Global,
    at: usize,
    state: State,
    least: u16,
    most: Option<u16>,
) -> Result<State, EreFault>
    ensures next { IfOk result (λ next. StepsTo state (Mark.Times least most 1) next) }
    ensures fault { IfErr result (λ fault. IsFaultOf at state (Mark.Times least most 1) fault) }
{
    let State { now, around } = state;
    let Line {
        branches,
        pieces,
        last,
    } = now;
    let Last::Open(piece) = last else {
        return Err(EreFault::Undefined { at });
    };
    if !counts(least, most) {
        return Err(EreFault::Repeat { at });
    }
    let most = match most {
        None => None,
        Some(most) => Some(most as u8),
    };
    let last = Last::Done(Tree::Repeat(Box::new(alloc, piece)?, least as u8, most));
    Ok(State {
        now: Line {
            branches,
            pieces,
            last,
        },
        around,
    })
}

/// A `)`: the end of the last group, or a character where none is open.
fn close(alloc: Global, at: usize, state: State) -> Result<State, EreFault>
    ensures next { IfOk result (λ next. StepsTo state Mark.Closing next) }
    ensures fault { IfErr result (λ fault. IsFaultOf at state Mark.Closing fault) }
{
    let State { now, mut around } = state;
    match around.pop() {
        None => {
            let mut now = now;
            push_piece(&mut now, Last::Open(Tree::Byte(b')')))?;
            Ok(State { now, around })
        }
        Some(mut outer) => match finish_list(alloc, now)? {
            None => Err(EreFault::Undefined { at }),
            Some(list) => {
                push_piece(&mut outer, Last::Open(list))?;
                Ok(State { now: outer, around })
            }
        },
    }
}
