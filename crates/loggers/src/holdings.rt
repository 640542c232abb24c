//! What the hosts hold of one receipt, and what each operation does to that.
ghost use Rattle.std.specs.Prelude.{◌≡◌};
ghost use Rattle.logger.specs.HostSets.{members};
ghost use Rattle.loggers.specs.FamilyBased.{holders_of, note_at, taken, given, carry_at, handed, hand_out, spread_at, lose_at, merge, gather, with_self, returned, rejoin_at};
ghost use Rattle.loggers.specs.FamilyViews.{holding, seen, holdings};

use super::entry::Entry;
use super::members::Members;
use logger::determinant::Determinant;
use logger::host_set::HostSet;
use network::message::Receipt;
use workload::host::Host;

/// Of one receipt: what each host holds of it.
pub type Holdings = [Option<Entry>; 8];

fn holders_of(entry: Option<Entry>) -> HostSet
    ensures { members result ≡ holders_of (seen entry) }
{
    entry.map_or(HostSet::empty(), |e| e.holders)
}

pub fn note_at(held: &mut Holdings, p: Host, d: Determinant)
    ensures { holdings held.new ≡ note_at p d (holdings held.old) }
{
    held[p.index()] = Some(Entry {
        source: Receipt::from(d),
        holders: HostSet::empty().insert(p),
    });
}

pub fn lose_at(held: &mut Holdings, p: Host)
    ensures { holdings held.new ≡ lose_at p (holdings held.old) }
{
    held[p.index()] = None;
}

// What p, which held `own`, holds after e was carried to it.
fn taken(own: Option<Entry>, e: &Entry, p: Host) -> Entry
    ensures { holding result ≡ taken (seen own) (holding e.now) p }
{
    Entry {
        holders: holders_of(own).union(e.holders).insert(p),
        ..*e
    }
}

// What the host that held e holds after it was carried to p.
fn given(e: &Entry, p: Host) -> Entry
    ensures { holding result ≡ given (holding e.now) p }
{
    Entry {
        holders: e.holders.insert(p),
        ..*e
    }
}

pub fn carry_at(held: &mut Holdings, hosts: &Members, s: Host, p: Host)
    ensures { holdings held.new ≡ carry_at hosts.now.f s p (holdings held.old) }
{
    let (from, to) = (s.index(), p.index());
    let Some(e) = held[from] else {
        return;
    };
    if hosts.too_few(e.holders) {
        held[to] = Some(taken(held[to], &e, p));
        held[from] = Some(given(&e, p));
    }
}

// What h, which held `own`, holds in the end: the determinant of e, if h is one of those that joined.
fn handed(own: Option<Entry>, e: &Entry, all: HostSet, h: Host) -> Option<Entry>
    ensures { seen result ≡ handed (holding e.now) (members all) h (seen own) }
{
    if all.contains(h) && !e.holders.contains(h) {
        Some(Entry {
            holders: holders_of(own).union(all),
            ..*e
        })
    } else {
        own
    }
}

// Each host of `all` that e did not know gets the determinant of e, and p, which held e, knows them all.
// A struct for e and all would be made for this one call.
fn hand_out(held: &mut Holdings, p: Host, e: &Entry, all: HostSet)
    ensures { holdings held.new ≡ hand_out p (holding e.now) (members all) (holdings held.old) }
{
    for (h, own) in held.iter_mut().enumerate() {
        *own = handed(*own, e, all, Host::new(h as u8));
    }
    held[p.index()] = Some(Entry { holders: all, ..*e });
}

pub fn spread_at(held: &mut Holdings, hosts: &Members, p: Host)
    ensures { holdings held.new ≡ spread_at hosts.now.n hosts.now.f (members hosts.now.down) p (holdings held.old) }
{
    let Some(e) = held[p.index()] else {
        return;
    };
    if hosts.too_few(e.holders) {
        hand_out(held, p, &e, hosts.join(e.holders));
    }
}

// A match, since `zip`, `map` and two times `or` would say it no plainer.
fn merge(a: Option<Entry>, b: Option<Entry>) -> Option<Entry>
    ensures { seen result ≡ merge (seen a) (seen b) }
{
    match (a, b) {
        (Some(e), Some(g)) => Some(Entry {
            holders: e.holders.union(g.holders),
            ..e
        }),
        _ => a.or(b),
    }
}

// What the hosts that are up hold, with all the holders that they know.
pub fn gather(held: &Holdings, hosts: &Members) -> Option<Entry>
    ensures { seen result ≡ gather (members hosts.now.down) (holdings held.now) hosts.now.n }
{
    hosts
        .n
        .hosts()
        .filter(|h| !hosts.down.contains(*h))
        .fold(None, |all, h| merge(all, held[h.index()]))
}

// What h, which held `own`, holds in the end: what was gathered, if h returns.
fn returned(own: Option<Entry>, all: &Option<Entry>, down: HostSet, h: Host) -> Option<Entry>
    ensures { seen result ≡ returned (members down) (seen all.now) h (seen own) }
{
    if down.contains(h) {
        all.as_ref().map(|e| given(e, h))
    } else {
        own
    }
}

pub fn rejoin_at(held: &mut Holdings, hosts: &Members)
    ensures { holdings held.new ≡ rejoin_at hosts.now.n (members hosts.now.down) (holdings held.old) }
{
    let all = gather(held, hosts);
    for (h, own) in held.iter_mut().enumerate() {
        *own = returned(*own, &all, hosts.down, Host::new(h as u8));
    }
}
