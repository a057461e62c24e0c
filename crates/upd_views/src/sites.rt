//! One line for each site.

ghost use Rattle.std.specs.Prelude.{◌≡◌, ◌∷◌, ◌++◌, decimal, map, IfOk, IsPermutation, OnOk};
ghost use Rattle.upd_views.specs.SiteLines.{AreBySite, AreSiteLines, add_sizes, joined, lines_from, lines_of, next_number};
ghost use Rattle.upd_views.specs.SiteLines.{of_mark, of_run, site_line};
ghost use Rattle.upd_views.specs.declared.sites.TheConstants.{MAX_NUMBER};

use crate::printing::push_field;
use itoa::Buffer;
use std::alloc::{AllocError, Global};
use std::marker::Model;
use upd_records::{MarkRow, RunRow};

/// The greatest number of a run.
const MAX_NUMBER: u64 = 999_999_999;

/// The greatest number of a run, as a number.
pub fn greatest_number_is_this()
    ensures { MAX_NUMBER ≡ 999999999 }
{}

/// What is known of a site.
#[derive(Debug, Drop)]
struct Site<'a> {
    site: &'a str,
    mark: u64,
    /// The greatest of its mark and the numbers of its stored runs.
    greatest: u64,
    /// How many bytes its stored runs and their replies have.
    stored: u64,
}

impl<'a> Model for Site<'a> {
    ghost use Rattle.upd_views.specs.SiteLines.{SiteView};

    ghost Value = { SiteView };

    ghost view = { λ s. record { site = s.site.now; mark = s.mark; greatest = s.greatest; stored = s.stored } };
}

impl<'a> Site<'a> {
    fn copy(&self) -> Site<'a>
        ensures { result ≡ self.now }
    {
        Site {
            site: self.site,
            mark: self.mark,
            greatest: self.greatest,
            stored: self.stored,
        }
    }
}

/// The line of each site that has a stored run or a mark, by their names: the site, its mark, the greatest number that
/// is taken by its mark or by a stored run, the next number, `none` where there is no greater one, and how many bytes its
/// stored runs and their replies have.
pub fn site_lines(alloc: Global, runs: &[RunRow], marks: &[MarkRow]) -> Result<Vec<u8>, AllocError>
    ensures { IfOk result (λ text. AreSiteLines runs.now marks.now text.items) }
{
    let mut sites = Vec::new(alloc);
    push_runs(&mut sites, runs)?;
    push_marks(&mut sites, marks)?;
    let sites = by_site(sites);
    let mut text = Vec::new(alloc);
    push_lines(&mut text, &sites)?;
    Ok(text)
}

fn push_runs<'a>(sites: &mut Vec<Site<'a>>, runs: &'a [RunRow]) -> Result<(), AllocError>
    ensures { OnOk result (sites.new.items ≡ sites.old.items ++ map of_run runs.now) }
{
    for run in runs {
        sites.push(Site {
            site: run.site.as_str(),
            mark: 0,
            greatest: run.number,
            stored: add_sizes(run.bytes.len() as u64, run.reply.len() as u64),
        })?;
    }
    Ok(())
}

fn push_marks<'a>(sites: &mut Vec<Site<'a>>, marks: &'a [MarkRow]) -> Result<(), AllocError>
    ensures { OnOk result (sites.new.items ≡ sites.old.items ++ map of_mark marks.now) }
{
    for row in marks {
        sites.push(Site {
            site: row.site.as_str(),
            mark: row.mark,
            greatest: row.mark,
            stored: 0,
        })?;
    }
    Ok(())
}

fn by_site(sites: Vec<Site<'_>>) -> Vec<Site<'_>>
    ensures permutation { IsPermutation sites.entry.items result.items }
    ensures sorted { AreBySite result.items }
{
    let mut sites = sites;
    sites.sort_unstable_by(|a, b| a.site.cmp(b.site));
    sites
}

fn push_lines(text: &mut Vec<u8>, sites: &[Site<'_>]) -> Result<(), AllocError>
    ensures { OnOk result (text.new.items ≡ text.old.items ++ lines_of sites.now) }
{
    match sites.split_first() {
        Some((first, others)) => push_lines_from(text, first.copy(), others),
        None => Ok(()),
    }
}

fn push_lines_from<'a>(
    text: &mut Vec<u8>,
    first: Site<'a>,
    others: &[Site<'a>],
) -> Result<(), AllocError>
    ensures { OnOk result (text.new.items ≡ text.old.items ++ lines_from first.entry others.now) }
{
    let mut site = first;
    for other in others {
        if other.site == site.site {
            site = joined(&site, other);
        } else {
            push_site(text, &site)?;
            site = other.copy();
        }
    }
    push_site(text, &site)
}

fn joined<'a>(a: &Site<'a>, b: &Site<'a>) -> Site<'a>
    ensures { result ≡ joined a.now b.now }
{
    Site {
        site: a.site,
        mark: a.mark.max(b.mark),
        greatest: a.greatest.max(b.greatest),
        stored: add_sizes(a.stored, b.stored),
    }
}

/// Two numbers of bytes together, or the greatest number where they are more.
fn add_sizes(a: u64, b: u64) -> u64
    ensures { result ≡ add_sizes a b }
{
    a.saturating_add(b)
}

fn push_site(text: &mut Vec<u8>, site: &Site<'_>) -> Result<(), AllocError>
    ensures { OnOk result (text.new.items ≡ text.old.items ++ site_line site.entry.now) }
{
    push_field(text, site.site.as_bytes())?;
    push_number(text, site.mark)?;
    push_number(text, site.greatest)?;
    text.extend_from_slice(b" ")?;
    push_next(text, site.greatest)?;
    push_number(text, site.stored)?;
    text.extend_from_slice(b"\n")
}

/// Appends a blank and a number.
fn push_number(text: &mut Vec<u8>, number: u64) -> Result<(), AllocError>
    ensures { OnOk result (text.new.items ≡ text.old.items ++ 32 ∷ decimal number) }
{
    text.extend_from_slice(b" ")?;
    text.extend_from_slice(Buffer::new().format(number).as_bytes())
}

fn push_next(text: &mut Vec<u8>, greatest: u64) -> Result<(), AllocError>
    ensures { OnOk result (text.new.items ≡ text.old.items ++ next_number greatest) }
{
    if greatest < MAX_NUMBER {
        text.extend_from_slice(Buffer::new().format(greatest + 1).as_bytes())
    } else {
        text.extend_from_slice(b"none")
    }
}
