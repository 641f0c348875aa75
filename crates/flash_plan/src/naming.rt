ghost use Rattle.std.specs.Prelude.{◌≡◌, ◌==◌, ◌<◌, ◌≤◌, bytes_eq, length};
ghost use Rattle.std.specs.List.{list_any};
ghost use Rattle.flash_plan.specs.Accepting.{draft_of, first_task, has_same_address, has_same_name, has_unknown, has_wide, is_task, is_unknown, is_wide};
ghost use Rattle.flash_base.specs.Lists.{Each};
ghost use Rattle.flash_base.specs.Numbers.{pow256};
ghost use Rattle.flash_plan.specs.Plan.{IsWidth};

use crate::unit::{Draft, Segment};
use flash_base::{Names, Text, Width};

/// Task `n`.
pub(crate) fn draft_at(drafts: &[Draft], n: usize) -> &Draft
    requires { n < length drafts.now }
    ensures { result.now ≡ draft_of drafts.now n }
{
    &drafts[n]
}

fn have_one_name(drafts: &[Draft], m: usize, n: usize) -> bool
    requires first { m < length drafts.now }
    requires second { n < length drafts.now }
    ensures { result ≡ bytes_eq (draft_of drafts.now m).name (draft_of drafts.now n).name }
{
    draft_at(drafts, m)
        .name
        .is(draft_at(drafts, n).name.as_str())
}

/// Whether an earlier task has the name of task `n`.
fn has_same_name(drafts: &[Draft], n: usize) -> bool
    requires { n < length drafts.now }
    ensures { result ≡ has_same_name drafts.now n }
{
    for m in 0..n {
        if have_one_name(drafts, m, n) {
            return true;
        }
    }
    false
}

/// The first task whose name an earlier one has.
pub(crate) fn same_name(drafts: &[Draft]) -> Option<u16>
    requires { length drafts.now ≤ 64 }
    ensures { result ≡ first_task drafts.now (has_same_name drafts.now) }
{
    for n in 0..drafts.len() {
        if has_same_name(drafts, n) {
            return Some(n as u16);
        }
    }
    None
}

fn have_one_address(drafts: &[Draft], m: usize, n: usize) -> bool
    requires first { m < length drafts.now }
    requires second { n < length drafts.now }
    ensures { result ≡ ((draft_of drafts.now m).address == (draft_of drafts.now n).address) }
{
    draft_at(drafts, m).address == draft_at(drafts, n).address
}

/// Whether an earlier task has the address of task `n`.
fn has_same_address(drafts: &[Draft], n: usize) -> bool
    requires { n < length drafts.now }
    ensures { result ≡ has_same_address drafts.now n }
{
    for m in 0..n {
        if have_one_address(drafts, m, n) {
            return true;
        }
    }
    false
}

/// The first task whose address an earlier one has.
pub(crate) fn same_address(drafts: &[Draft]) -> Option<u16>
    requires { length drafts.now ≤ 64 }
    ensures { result ≡ first_task drafts.now (has_same_address drafts.now) }
{
    for n in 0..drafts.len() {
        if has_same_address(drafts, n) {
            return Some(n as u16);
        }
    }
    None
}

fn has_name(draft: &Draft, name: &Text) -> bool
    ensures { result ≡ bytes_eq draft.now.name name.now }
{
    draft.name.is(name.as_str())
}

/// Whether a task has the name.
fn is_task(drafts: &[Draft], name: &Text) -> bool
    ensures { result ≡ is_task drafts.now name.now }
{
    for n in 0..drafts.len() {
        if has_name(&drafts[n], name) {
            return true;
        }
    }
    false
}

fn is_unknown(drafts: &[Draft], name: &Text) -> bool
    ensures { result ≡ is_unknown drafts.now name.now }
{
    !is_task(drafts, name)
}

/// Whether some of these names is no task's.
fn are_unknown(drafts: &[Draft], names: &Names) -> bool
    ensures { result ≡ list_any (is_unknown drafts.now) names.now }
{
    for i in 0..names.len() {
        if is_unknown(drafts, names.at(i)) {
            return true;
        }
    }
    false
}

fn has_unknown(drafts: &[Draft], n: usize) -> bool
    requires { n < length drafts.now }
    ensures { result ≡ has_unknown drafts.now n }
{
    are_unknown(drafts, &draft_at(drafts, n).after)
}

/// The first task that names one that is none.
pub(crate) fn unknown_after(drafts: &[Draft]) -> Option<u16>
    requires { length drafts.now ≤ 64 }
    ensures { result ≡ first_task drafts.now (has_unknown drafts.now) }
{
    for n in 0..drafts.len() {
        if has_unknown(drafts, n) {
            return Some(n as u16);
        }
    }
    None
}

/// 256 to a power of 1 to 5.
fn power(n: u8) -> u64
    requires some { 1 ≤ n }
    requires few { n ≤ 5 }
    ensures { result ≡ pow256 n }
{
    match n {
        1 => 0x100,
        2 => 0x1_0000,
        3 => 0x100_0000,
        4 => 0x1_0000_0000,
        _ => 0x100_0000_0000,
    }
}

/// Whether the segment's size or its last address does not fit the width.
fn is_wide(width: Width, segment: &Segment) -> bool
    requires { IsWidth width }
    ensures { result ≡ is_wide width segment.now }
{
    let size = segment.body.len() as u64;
    if size >= power(width.size) {
        return true;
    }
    let most = power(width.at);
    if size > most {
        return true;
    }
    segment.at > most - size
}

fn are_wide(width: Width, segments: &[Segment]) -> bool
    requires { IsWidth width }
    ensures { result ≡ list_any (is_wide width) segments.now }
{
    for i in 0..segments.len() {
        if is_wide(width, &segments[i]) {
            return true;
        }
    }
    false
}

fn has_wide(drafts: &[Draft], n: usize) -> bool
    requires within { n < length drafts.now }
    requires width { IsWidth (draft_of drafts.now n).width }
    ensures { result ≡ has_wide drafts.now n }
{
    let draft = draft_at(drafts, n);
    are_wide(draft.width, draft.segments.as_slice())
}

/// The first task with a segment that does not fit its width.
pub(crate) fn too_wide(drafts: &[Draft]) -> Option<u16>
    requires few { length drafts.now ≤ 64 }
    requires widths { Each (λ d. IsWidth d.width) drafts.now }
    ensures { result ≡ first_task drafts.now (has_wide drafts.now) }
{
    for n in 0..drafts.len() {
        if has_wide(drafts, n) {
            return Some(n as u16);
        }
    }
    None
}
