//! Pages of a file that don't end in their sum, as SQLite's cksumvfs sums.
ghost use Rattle.std.specs.Prelude.{◌≡◌, ◌≤◌, ◌↔◌, IsTrue, IfOk, IfSome, length};
ghost use Rattle.std.specs.List.{AllByRecursion};
ghost use Rattle.upd_keep.specs.PageSums.{IsSummed, sum_bytes};

use itoa::Buffer;
use sqlite_wal::checksum_of;
use std::alloc::{AllocError, Global};
use std::fs;

/// The bytes of a sum.
const SUM: usize = 8;

/// The most pages that are named.
const MOST: usize = 100;

/// A line that names the pages of the file at a path that don't end in their sum, by their numbers from 1. It is empty where
/// there are none, where the file has no sums or can't be read, and where memory runs out.
pub(crate) fn wrong_pages_at(rt: &HostRuntime, path: &str) -> Vec<u8> {
    let alloc = rt.alloc();
    let Ok(file) = fs::read(rt, path) else {
        return Vec::new(alloc);
    };
    match wrong_pages(alloc, &file) {
        Ok(pages) => pages_line(alloc, &pages).unwrap_or(Vec::new(alloc)),
        Err(_) => Vec::new(alloc),
    }
}

/// The line that names pages, empty for none.
fn pages_line(alloc: Global, pages: &[usize]) -> Result<Vec<u8>, AllocError> {
    let mut line = Vec::new(alloc);
    if pages.is_empty() {
        return Ok(line);
    }
    line.extend_from_slice(b"upd: pages with a wrong sum:")?;
    for page in pages {
        line.extend_from_slice(b" ")?;
        line.extend_from_slice(Buffer::new().format(*page).as_bytes())?;
    }
    line.extend_from_slice(b"\n")?;
    Ok(line)
}

/// The numbers, from 1, of the first pages of a file that don't end in their sum.
fn wrong_pages(alloc: Global, file: &[u8]) -> Result<Vec<usize>, AllocError>
    ensures { IfOk result (λ pages. AllByRecursion (λ k. k ≤ length file.now) pages.items) }
{
    let mut pages = Vec::new(alloc);
    let Some(size) = summed_size(file) else {
        return Ok(pages);
    };
    let mut rest = file;
    let mut number = 0usize;
    while rest.len() >= size && pages.len() < MOST {
        let (page, after) = rest.split_at(size);
        number += 1;
        if !is_summed(page) {
            pages.push(number)?;
        }
        rest = after;
    }
    Ok(pages)
}

/// The length of the pages of a file whose header says that they have sums.
fn summed_size(file: &[u8]) -> Option<usize>
    ensures { IfSome result (λ size. 512 ≤ size) }
{
    if file.len() < 100 || file[20] as usize != SUM {
        return None;
    }
    match file[16] as usize * 256 + file[17] as usize {
        1 => Some(65_536),
        size if size >= 512 => Some(size),
        _ => None,
    }
}

/// Whether a page ends in the sum of the bytes before.
fn is_summed(page: &[u8]) -> bool
    requires { 8 ≤ length page.now }
    ensures { IsTrue result ↔ IsSummed page.now }
{
    let (body, sum) = page.split_at(page.len() - SUM);
    sum == sum_of(body).as_slice()
}

/// The sum of these bytes.
fn sum_of(bytes: &[u8]) -> [u8; 8]
    ensures { result ≡ sum_bytes bytes.now }
{
    let (first, second) = checksum_of(false, (0, 0), bytes);
    let (a, b) = (first.to_le_bytes(), second.to_le_bytes());
    [a[0], a[1], a[2], a[3], b[0], b[1], b[2], b[3]]
}
