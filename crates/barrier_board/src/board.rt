ghost use Rattle.std.specs.Prelude.{◌≡◌, ◌<◌, ◌≢◌, true, not, None, length, IfOk, MatchOption};
ghost use Rattle.flash_base.specs.Numbers.{each_below};
ghost use Rattle.barrier_board.specs.Board.{is_free_at, post_of, at_unit, give, take_up, HasClaimed, IsFirstFree, IsNextFree, IsStart, NamesWithin, has_entry, new_post};

use crate::post::{Post, free};
use flash_base::{Items, NoMemory};
use flash_plan::{Entries, Entry, Outcome, Plan, UnitPlan};
use std::alloc::Global;
use std::marker::Model;

/// What a claim gave.
#[derive(Clone, Copy, Debug, PartialEq, Eq)]
pub enum Claimed {
    /// The unit with this number was taken up.
    Unit(u16),
    /// No unit may be taken up now.
    Nothing,
}

/// The units of a plan, who was taken up, and their outcomes: contracts see the list of posts, one a unit.
#[derive(Debug, Drop)]
pub struct Board {
    posts: Vec<Post>,
}

impl Model for Board {
    ghost use Rattle.std.specs.Prelude.{◌≤◌, List, length};
    ghost use Rattle.barrier_board.specs.declared.post.Post.{Post};

    ghost Value = { List Post };

    ghost view = { λ b. b.posts.items };

    ghost invariant = { λ b. length b.posts.items ≤ 65535 };
}

/// Whether the entry is among those.
fn has(entries: &[Entry], entry: Entry) -> bool
    ensures { result ≡ has_entry entries.now entry }
{
    for e in entries {
        if *e == entry {
            return true;
        }
    }
    false
}

/// The post of a unit at the start.
fn post(alloc: Global, unit: &UnitPlan, done: bool) -> Result<Post, NoMemory>
    ensures { IfOk result (λ p. p ≡ new_post unit.now.after done) }
{
    let after = Items::from_vec(unit.after.as_slice().to_vec(alloc)?);
    Ok(Post {
        after,
        claimed: false,
        outcome: if done { Some(Outcome::Complete) } else { None },
    })
}

/// The lowest unit that may be taken up.
fn first_free(posts: &[Post]) -> Option<usize>
    ensures { MatchOption result (each_below (length posts.now) (λ w. not (is_free_at posts.now w)) ≡ true)
        (IsFirstFree posts.now) }
{
    for i in 0..posts.len() {
        if free(posts, &posts[i]) {
            return Some(i);
        }
    }
    None
}

impl Board {
    /// The board of a plan; units that `entries` records complete have that outcome.
    pub fn new(alloc: Global, plan: &Plan, entries: &Entries) -> Result<Board, NoMemory>
        ensures { IfOk result (IsStart plan.now entries.now) }
    {
        let mut posts = Vec::new(alloc);
        for n in 0..plan.units() {
            let done = has(entries.as_slice(), Entry::Complete(n));
            posts.push(post(alloc, plan.unit(n), done)?)?;
        }
        Ok(Board { posts })
    }

    /// The lowest unit without outcome that was not taken up and all of whose units before it are recorded
    /// complete: the one that may be taken up.
    pub fn next_free(&self) -> Option<u16>
        ensures { IsNextFree self.now result }
    {
        match first_free(&self.posts) {
            Some(i) => Some(i as u16),
            None => None,
        }
    }

    /// Takes up the unit that may be taken up.
    pub fn take_up(&mut self, unit: u16)
        requires { IsFirstFree self.old unit }
        ensures { self.new ≡ at_unit unit take_up self.old }
    {
        self.posts[unit as usize].claimed = true;
    }

    /// Takes up the unit that may be taken up, if there is one.
    pub fn claim(&mut self) -> Claimed
        ensures { HasClaimed self.old result self.new }
    {
        match self.next_free() {
            Some(unit) => {
                self.take_up(unit);
                Claimed::Unit(unit)
            }
            None => Claimed::Nothing,
        }
    }

    /// Notes that the unit is recorded complete.
    pub fn complete(&mut self, unit: u16)
        requires within { unit < length self.old }
        requires claimed { (post_of self.old unit).claimed ≡ true }
        requires open { (post_of self.old unit).outcome ≡ None }
        ensures { self.new ≡ at_unit unit (give Outcome.Complete) self.old }
    {
        self.posts[unit as usize].outcome = Some(Outcome::Complete);
    }

    /// Notes another outcome of a unit, taken up or not.
    pub fn end(&mut self, unit: u16, outcome: Outcome)
        requires within { unit < length self.old }
        requires open { (post_of self.old unit).outcome ≡ None }
        requires other { outcome ≢ Outcome.Complete }
        requires blocker { NamesWithin (length self.old) outcome }
        ensures { self.new ≡ at_unit unit (give outcome) self.old }
    {
        self.posts[unit as usize].outcome = Some(outcome);
    }

    /// The unit's outcome, if it has one.
    pub fn outcome(&self, unit: u16) -> Option<Outcome>
        requires { unit < length self.now }
        ensures { result ≡ (post_of self.now unit).outcome }
    {
        self.posts[unit as usize].outcome
    }
}

#[cfg(test)]
mod tests;
