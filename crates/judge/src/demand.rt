// Demands: how much processor time a window asks for, and the least window that has room for what it asks.
ghost use Rattle.std.specs.Prelude.{◌≡◌, ◌≤◌};
ghost use Rattle.judge.specs.Bounds.{LeastUpTo, HasRoom};
ghost use Rattle.judge.specs.Demand.{demand_by};

use super::above::Above;
use super::share::Share;

impl Above<'_> {
    // The demand of a window: a first budget of its own, and the share of each row above.
    fn demand<S: Share>(&self, share: &S, own: u32, window: u32) -> u64
        requires { window ≤ 524286 }
        ensures { result ≡ demand_by (S.taken share.now) self.now.rows.now own window }
    {
        let shares: u64 = self.rows.iter().map(|row| share.of(row, window)).sum();
        own as u64 + shares
    }

    // The least window, up to `limit`, with room for its own demand. No window below a demand that it asks has room,
    // since demands rise with the window: so the search jumps from demand to demand.
    pub(crate) fn least<S: Share>(&self, share: &S, own: u32, limit: u32) -> Option<u32>
        requires { limit ≤ 524286 }
        ensures { LeastUpTo limit (HasRoom (S.taken share.now) self.now.rows.now own) result }
    {
        let mut window = own as u64;
        while window <= limit as u64 {
            let needed = self.demand(share, own, window as u32);
            if needed <= window {
                return Some(window as u32);
            }
            window = needed;
        }
        None
    }
}
