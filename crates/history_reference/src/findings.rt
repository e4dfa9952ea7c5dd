//! What a point finds at given pages: the first stale translation of each pair of a processor and a PCID.

ghost use Rattle.std.specs.Prelude.{◌≡◌, ◌↔◌, MatchBool, IfOk, OnOk};
ghost use Rattle.paging_model.specs.Counting.{IsIn};
ghost use Rattle.history_model.specs.StaleTranslations.{AreFindings, IsNotAfter, scope as scope_at};
ghost use Rattle.history_model.specs.declared.caches.Finding.{Finding};
ghost use Rattle.history_reference.specs.GivenPages.{AreAllPages, AreFindingsAmong, IsFirstFinding, IsStaleAmong, with_first as with_first_of};
ghost use Rattle.history_reference.specs.Moments.{history_of};

use crate::moments::Moment;
use crate::stale_pages::stale_translations;
use crate::visits::scope;
use history_model::caches::Finding;
use std::alloc::{AllocError, Global};

/// The first finding at given pages of each pair that a point checks and that has one there, in the order of the pairs.
/// Where each page that has a stale translation is given, they are the findings of the point.
pub fn findings_among(
    alloc: Global,
    moment: &Moment,
    all: bool,
    pages: &[u64],
) -> Result<Vec<Finding>, AllocError>
    ensures among { let history = history_of moment.now in IfOk result
        (λ list. AreFindingsAmong history pages.now (scope_at history all) list.items) }
    ensures whole { let history = history_of moment.now in
        AreAllPages history pages.now (scope_at history all)
        → IfOk result (λ list. AreFindings history (scope_at history all) list.items) }
{
    let pairs = scope(alloc, moment, all)?;
    findings_of(alloc, moment, &pairs, pages)
}

/// The first finding of each of these pairs.
fn findings_of(
    alloc: Global,
    moment: &Moment,
    pairs: &[(u32, u16)],
    pages: &[u64],
) -> Result<Vec<Finding>, AllocError>
    ensures { IfOk result (λ list.
        AreFindingsAmong (history_of moment.now) pages.now pairs.now list.items) }
{
    let Some((at, others)) = pairs.split_first() else {
        return Ok(Vec::new(alloc));
    };
    let (cpu, pcid) = *at;
    let mut list = findings_of(alloc, moment, others, pages)?;
    let first = first_finding(alloc, moment, cpu, pcid, pages)?;
    put_first(&mut list, first)?;
    Ok(list)
}

/// Puts a finding before others, where there is one.
fn put_first(list: &mut Vec<Finding>, first: Option<Finding>) -> Result<(), AllocError>
    ensures { OnOk result (list.new.items ≡ with_first_of first list.old.items) }
{
    let Some(first) = first else {
        return Ok(());
    };
    list.insert(0, first)?;
    Ok(())
}

/// The first finding at given pages of a processor and a PCID.
pub fn first_finding(
    alloc: Global,
    moment: &Moment,
    cpu: u32,
    pcid: u16,
    pages: &[u64],
) -> Result<Option<Finding>, AllocError>
    ensures { IfOk result (λ first. IsFirstFinding
        (IsStaleAmong (history_of moment.now) cpu pcid pages.now) first) }
{
    let stale = stale_among(alloc, moment, cpu, pcid, pages)?;
    Ok(first_of(&stale))
}

/// The stale translations of a processor and a PCID at given pages.
fn stale_among(
    alloc: Global,
    moment: &Moment,
    cpu: u32,
    pcid: u16,
    pages: &[u64],
) -> Result<Vec<Finding>, AllocError>
    ensures { IfOk result (λ list. (finding : Finding) → IsIn finding list.items
        ↔ IsStaleAmong (history_of moment.now) cpu pcid pages.now finding) }
{
    let mut list = Vec::new(alloc);
    for page in pages {
        let here = stale_translations(alloc, moment, cpu, pcid, *page)?;
        list.extend_from_slice(&here)?;
    }
    Ok(list)
}

/// The first of findings: by page, then by frame, then by the number of the excess.
fn first_of(findings: &[Finding]) -> Option<Finding>
    ensures { IsFirstFinding (λ finding. IsIn finding findings.now) result }
{
    let Some((one, others)) = findings.split_first() else {
        return None;
    };
    let Some(other) = first_of(others) else {
        return Some(*one);
    };
    if is_not_after(one, &other) {
        return Some(*one);
    }
    Some(other)
}

/// Whether the first of two findings doesn't come after the second.
fn is_not_after(one: &Finding, other: &Finding) -> bool
    ensures { MatchBool result (IsNotAfter one.now other.now) (IsNotAfter other.now one.now) }
{
    if one.page != other.page {
        return one.page < other.page;
    }
    if one.frame != other.frame {
        return one.frame < other.frame;
    }
    one.excess.number() <= other.excess.number()
}
