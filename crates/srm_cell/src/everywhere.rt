//! Packets that went everywhere, by their kinds.
ghost use Rattle.std.specs.Prelude.{◌≡◌, ◌<◌, ◌+◌, ◌*◌, ◌^◌, length};
ghost use Rattle.srm_ledger.specs.Counts.{counted_at};
ghost use Rattle.srm_ledger.specs.declared.kind.Kind.{Kind};
ghost use Rattle.srm_cell.specs.Crossings.{kind_of};
ghost use Rattle.srm_cell.specs.Tallies.{number_of, none_everywhere, one_everywhere, with_everywhere};

use srm_ledger::kind::Kind;
use srm_ledger::totals::Totals;
use srm_net::packet::Body;

/// How many packets of each kind went everywhere: neither a scope nor a drop stopped them on the way to any node.
#[derive(Clone, Copy, Debug)]
pub struct Everywhere {
    /// Drawing operations, sent by their source.
    pub drawops: u64,
    /// Requests.
    pub requests: u64,
    /// Repairs.
    pub repairs: u64,
    /// Session messages.
    pub sessions: u64,
}

impl Everywhere {
    /// None yet.
    pub fn none() -> Self
        ensures { result ≡ none_everywhere }
    {
        Everywhere {
            drawops: 0,
            requests: 0,
            repairs: 0,
            sessions: 0,
        }
    }

    /// Counts one more packet, which carries this.
    pub fn count(&mut self, body: &Body)
        requires { number_of self.old (kind_of body.now) + 1 < 2 ^ 64 }
        ensures { self.new ≡ one_everywhere self.old (kind_of body.now) }
    {
        match body {
            Body::Drawop { .. } => self.drawops += 1,
            Body::Request { .. } => self.requests += 1,
            Body::Repair { .. } => self.repairs += 1,
            Body::Session { .. } => self.sessions += 1,
        }
    }

    /// Adds the packets to the totals of a link that all of them crossed.
    pub fn add_to(&self, totals: &mut Totals, link: u16)
        requires within { 5 * link + 4 < length totals.old }
        requires room { (k : Kind) → counted_at totals.old link k + number_of self.now k < 2 ^ 64 }
        ensures { totals.new ≡ with_everywhere self.now link totals.old }
    {
        totals.add(link, Kind::Drawop, self.drawops);
        totals.add(link, Kind::Request, self.requests);
        totals.add(link, Kind::Repair, self.repairs);
        totals.add(link, Kind::Session, self.sessions);
    }
}
