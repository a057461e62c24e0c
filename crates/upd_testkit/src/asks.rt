//! What is asked of a desk, and its answers as text.
use std::alloc::Global;
use std::test::Fail;
use upd_text::Fault;

/// A run that arrives.
#[derive(Clone, Copy, Debug)]
pub struct Sent<'a> {
    pub site: &'a str,
    pub number: u64,
    pub mode: &'a str,
    pub text: &'a str,
}

/// A run of the site LYON.
pub fn lyon<'a>(number: u64, mode: &'a str, text: &'a str) -> Sent<'a> {
    Sent {
        site: "LYON",
        number,
        mode,
        text,
    }
}

/// What is asked of a desk.
#[derive(Clone, Copy, Debug)]
pub enum Ask<'a> {
    Run(Sent<'a>),
    /// A run of the site LYON: its number, its mode and its text.
    Lyon(u64, &'a str, &'a str),
    Settle(&'a str, u64),
    Compile,
    Deck(&'a str),
    Card(&'a str),
    Idents,
    Yanks,
}

/// An answer as text, or the fault in its place.
pub fn shown(alloc: Global, answer: Result<Vec<u8>, Fault>) -> Result<String, Fail> {
    match answer {
        Ok(text) => Ok(String::from_str(alloc, std::str::from_utf8(&text)?)?),
        Err(fault) => Ok(format!(in alloc; "{fault}")?),
    }
}
