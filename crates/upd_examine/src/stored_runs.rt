//! Whether stored runs and marks are right.
ghost use Rattle.std.specs.Prelude.{◌≡◌, ◌↔◌, map, IfOk, IsTrue};
ghost use Rattle.std.specs.List.{list_all};
ghost use Rattle.upd_examine.specs.RunForms.{AreRunsSound, has_reply, is_above, is_key, is_run_right, mode_part};
ghost use Rattle.upd_examine.specs.RunForms.{outcome_word, reply_end, reply_start, run_key};

use crate::bytes::Bytes;
use crate::conjunctions::all_four;
use crate::sound_tests::are_apart;
use itoa::Buffer;
use std::alloc::{AllocError, Global};
use upd_records::{MarkRow, RunRow, mode_word};
use upd_text::keys::{is_run_number, is_site};

fn outcome_word(run: &RunRow) -> &'static [u8]
    ensures { result.now ≡ outcome_word run.now }
{
    if run.accepted {
        b"accepted"
    } else {
        b"refused"
    }
}

fn reply_start(run: &RunRow) -> &'static [u8]
    ensures { result.now ≡ reply_start run.now }
{
    if run.accepted {
        b"{\"compile\":\""
    } else {
        b"{\"at\":"
    }
}

/// What only a reply to an accepted run has in front of its number.
fn mode_part(alloc: Global, run: &RunRow) -> Result<Vec<u8>, AllocError>
    ensures { IfOk result (λ part. part.items ≡ mode_part run.now) }
{
    let mut part = Vec::new(alloc);
    if run.accepted {
        part.extend_from_slice(b",\"mode\":\"")?;
        part.extend_from_slice(mode_word(run.mode))?;
        part.extend_from_slice(b"\"")?;
    }
    Ok(part)
}

fn reply_end(alloc: Global, run: &RunRow) -> Result<Vec<u8>, AllocError>
    ensures { IfOk result (λ end. end.items ≡ reply_end run.now) }
{
    let mut end = mode_part(alloc, run)?;
    end.extend_from_slice(b",\"run\":")?;
    end.extend_from_slice(Buffer::new().format(run.number).as_bytes())?;
    end.extend_from_slice(b",\"site\":\"")?;
    end.extend_from_slice(run.site.as_bytes())?;
    end.extend_from_slice(b"\",\"state\":\"")?;
    end.extend_from_slice(outcome_word(run))?;
    end.extend_from_slice(b"\"}")?;
    Ok(end)
}

/// Whether a reply begins and ends as one to its run. What is between is not looked at.
pub fn has_reply(alloc: Global, run: &RunRow) -> Result<bool, AllocError>
    ensures { IfOk result (λ has. has ≡ has_reply run.now) }
{
    let end = reply_end(alloc, run)?;
    let begins = run.reply.starts_with(reply_start(run));
    let ends = run.reply.ends_with(&end);
    Ok(begins && ends)
}

/// Whether a run has a number above the mark of its site. It goes over all marks: there is one for each site.
pub fn is_above(marks: &[MarkRow], run: &RunRow) -> bool
    ensures { result ≡ is_above marks.now run.now }
{
    marks.iter().all(|row| row.site.as_bytes() != run.site.as_bytes() || row.mark < run.number)
}

/// Whether a site is one, and a number is a run's.
fn is_key(site: &[u8], number: u64) -> bool
    ensures { result ≡ is_key site.now number }
{
    is_site(site) && is_run_number(number)
}

/// Whether each mark has a site that is one, and a run's number.
pub fn are_marks_right(marks: &[MarkRow]) -> bool
    ensures { result ≡ list_all (λ m. is_key m.site m.mark) marks.now }
{
    marks
        .iter()
        .all(|row| is_key(row.site.as_bytes(), row.mark))
}

/// Whether a stored run is right.
fn is_run_right(alloc: Global, marks: &[MarkRow], run: &RunRow) -> Result<bool, AllocError>
    ensures { IfOk result (λ right. right ≡ is_run_right marks.now run.now) }
{
    let key = is_key(run.site.as_bytes(), run.number);
    let above = is_above(marks, run);
    let reply = has_reply(alloc, run)?;
    Ok(all_four(key, above, run.mode <= 2, reply))
}

/// Whether each stored run is right.
fn are_each_right(alloc: Global, marks: &[MarkRow], runs: &[RunRow]) -> Result<bool, AllocError>
    ensures { IfOk result (λ right. right ≡ list_all (is_run_right marks.now) runs.now) }
{
    for run in runs {
        if !is_run_right(alloc, marks, run)? {
            return Ok(false);
        }
    }
    Ok(true)
}

/// The sites of marks.
pub fn sites_of(alloc: Global, marks: &[MarkRow]) -> Result<Vec<Bytes>, AllocError>
    ensures { IfOk result (λ sites. sites.items ≡ map (λ m. m.site) marks.now) }
{
    let mut sites = Vec::with_capacity(alloc, marks.len())?;
    for row in marks {
        sites.push(Bytes::of(alloc, row.site.as_bytes())?)?;
    }
    Ok(sites)
}

/// The keys of stored runs.
pub fn run_keys(alloc: Global, runs: &[RunRow]) -> Result<Vec<(Bytes, u64)>, AllocError>
    ensures { IfOk result (λ keys. keys.items ≡ map run_key runs.now) }
{
    let mut keys = Vec::with_capacity(alloc, runs.len())?;
    for run in runs {
        let site = Bytes::of(alloc, run.site.as_bytes())?;
        keys.push((site, run.number))?;
    }
    Ok(keys)
}

/// Whether stored runs and marks are right.
pub fn are_runs_sound(alloc: Global, runs: &[RunRow], marks: &[MarkRow]) -> Result<bool, AllocError>
    ensures { IfOk result (λ sound. IsTrue sound ↔ AreRunsSound runs.now marks.now) }
{
    let marked = are_marks_right(marks);
    let sites = are_apart(sites_of(alloc, marks)?);
    let keys = are_apart(run_keys(alloc, runs)?);
    let each = are_each_right(alloc, marks, runs)?;
    Ok(all_four(marked, sites, keys, each))
}
