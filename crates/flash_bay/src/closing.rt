//! The end of a bay.
ghost use Rattle.std.specs.Prelude.{◌≡◌};
ghost use Rattle.flash_bay.specs.Closing.{Closes, ClosesLogged, NoneClaimed, NoneOpen};

use crate::bay::Bay;
use barrier_board::Board;
use bay_core::Log;
use flash_plan::Plan;
use shop_model::Shop;

impl<S: Shop> Bay<S> {
    /// Gives each unit without outcome what is left for it: what stopped the bay, or else that it is blocked by the
    /// lowest unit that is to be complete before it and is not. It hands out the shop, the outcomes and the log. It
    /// wants no memory.
    pub fn close_logged(self, plan: &Plan) -> (S, Board, Log)
        requires plan { plan.now ≡ self.run.plan }
        requires open { NoneOpen self.run }
        requires claimed { NoneClaimed self.run }
        ensures { ClosesLogged S.tells_disk S.tells_vehicle S.history self result.0 result.1 result.2 }
    {
        let Bay {
            shop,
            journal: _journal,
            mut run,
            alloc: _alloc,
            first: _first,
        } = self;
        run.finish(plan);
        run.is_kept();
        let (board, log) = run.into_log();
        (shop, board, log)
    }

    /// As [`Bay::close_logged`], without the log.
    pub fn close(self, plan: &Plan) -> (S, Board)
        requires plan { plan.now ≡ self.run.plan }
        requires open { NoneOpen self.run }
        requires claimed { NoneClaimed self.run }
        ensures { Closes S.tells_disk S.tells_vehicle S.history self result.0 result.1 }
    {
        let (shop, board, _log) = self.close_logged(plan);
        (shop, board)
    }
}
