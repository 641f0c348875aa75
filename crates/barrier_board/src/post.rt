ghost use Rattle.std.specs.Prelude.{◌≡◌};
ghost use Rattle.flash_base.specs.Lists.{all_of};
ghost use Rattle.barrier_board.specs.Board.{is_complete, is_free};

use flash_base::Items;
use flash_plan::Outcome;

/// What a board keeps of one unit.
#[derive(Debug, Drop)]
pub struct Post {
    /// The numbers of the units that have to be complete before it is taken up.
    pub after: Items<u16>,
    pub claimed: bool,
    pub outcome: Option<Outcome>,
}

/// Whether the unit is recorded complete.
fn complete(posts: &[Post], unit: u16) -> bool
    ensures { result ≡ is_complete posts.now unit }
{
    match posts.get(unit as usize) {
        Some(post) => matches!(post.outcome, Some(Outcome::Complete)),
        None => false,
    }
}

/// Whether all of these units are recorded complete.
fn all_complete(posts: &[Post], units: &[u16]) -> bool
    ensures { result ≡ all_of units.now (is_complete posts.now) }
{
    for unit in units {
        if !complete(posts, *unit) {
            return false;
        }
    }
    true
}

/// Whether the unit of this post may be taken up.
pub fn free(posts: &[Post], post: &Post) -> bool
    ensures { result ≡ is_free posts.now post.now }
{
    post.outcome.is_none() && !post.claimed && all_complete(posts, post.after.as_slice())
}
