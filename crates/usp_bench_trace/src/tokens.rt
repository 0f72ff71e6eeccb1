//! The tokens of a bench.

use std::alloc::Global;
use std::io;
use usp_jws::{Token, split};

/// A header, and the claims of a lab's grant, as base64url with their dots.
const FRONT: &[u8] = b"eyJhbGciOiJIUzI1NiIsImtpZCI6ImthIn0.\
    eyJpc3MiOiJjcCIsImF1ZCI6ImNkbi1hIiwiZXhwIjoyMDAwLCJuYmYiOjkwMCwianRpIjoibjEiLCJjZG5pZXRzIjozMCwiY2Ru\
    aXN0dCI6MSwiY2RuaXN0ZCI6MiwiY2RuaXVjIjoicmVnZXg6Xmh0dHBzOi8vW14vXSovIn0.";

/// The letters of a signature.
const LETTERS: usize = 43;

pub fn no_memory() -> io::Error {
    io::Error::from(io::ErrorKind::OutOfMemory)
}

/// A token whose signature is that of no other number.
pub fn token_of(alloc: Global, number: u32) -> io::Result<Token> {
    let mut signature = [b'A'; LETTERS];
    let mut rest = number;
    for letter in signature.iter_mut().take(8) {
        *letter = b'a' + (rest % 16) as u8;
        rest = rest / 16;
    }
    let mut text = Vec::with_capacity(alloc, FRONT.len() + LETTERS)?;
    text.extend_from_slice(FRONT)?;
    text.extend_from_slice(&signature)?;
    let Ok(parts) = split(&text) else {
        return Err(io::Error::from(io::ErrorKind::InvalidData));
    };
    match Token::of(alloc, &parts) {
        Ok(token) => Ok(token),
        Err(_) => Err(no_memory()),
    }
}
