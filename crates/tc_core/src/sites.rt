// What is known of data components.

ghost use Rattle.std.specs.Prelude.{◌≡◌, ◌<◌, length, replicate, slice_get, Some, None, IfSome, IfNone, IfOk};
ghost use Rattle.transactions.specs.InFlight.{untold, site_at, site_of};
ghost use Rattle.tc_core.specs.Replies.{is_heard};

use access_slots::op::{Op, Reply};
use std::alloc::{AllocError, Global};
use transactions::Site;

/// Nothing was told of it.
pub const UNTOLD: Site = Site {
    incarnation: 0,
    redo: None,
};

/// So many data components of which nothing was told.
pub fn untold(alloc: Global, dcs: u16) -> Result<Vec<Site>, AllocError>
    ensures { IfOk result (λ v. v.items ≡ replicate dcs untold) }
{
    Ok(vec![in alloc; UNTOLD; usize::from(dcs)]?)
}

/// The place 0 of the log for each of so many data components.
pub fn starts(alloc: Global, dcs: u16) -> Result<Vec<usize>, AllocError>
    ensures { IfOk result (λ v. v.items ≡ replicate dcs 0) }
{
    Ok(vec![in alloc; 0; usize::from(dcs)]?)
}

/// Each of these places is the log's first.
pub fn begin_all(starts: &mut Vec<usize>)
    ensures { starts.new.items ≡ replicate (length starts.old.items) 0 }
{
    starts.fill(0);
}

/// What is known of a data component, and its place of the log.
pub fn known(sites: &[Site], starts: &[usize], dc: u16) -> Option<(Site, usize)>
    requires { length starts.now ≡ length sites.now }
    ensures site { IfSome result (λ x. slice_get sites.now dc ≡ Some x.0) }
    ensures start { IfSome result (λ x. slice_get starts.now dc ≡ Some x.1) }
    ensures inside { IfSome result (λ x. dc < length sites.now) }
    ensures absent { IfNone result (slice_get sites.now dc ≡ None) }
{
    let at = usize::from(dc);
    if at >= sites.len() {
        return None;
    }
    Some((sites[at], starts[at]))
}

/// What is known of a data component; of one that isn't there, as if nothing was told of it.
#[inline(always)]
pub fn site_at(sites: &[Site], dc: usize) -> Site
    ensures { result ≡ site_at sites.now dc }
{
    match sites.get(dc) {
        Some(site) => *site,
        None => UNTOLD,
    }
}

/// What is known of the data component that keeps an operation's record.
#[inline(always)]
pub fn site_of(sites: &[Site], op: &Op) -> Site
    ensures { result ≡ site_of sites.now op.now }
{
    site_at(sites, usize::from(op.record().dc))
}

/// Whether the reply is of the known incarnation of a data component that is up.
#[inline(always)]
pub fn is_heard(site: &Site, reply: &Reply) -> bool
    ensures { result ≡ is_heard site.now reply.now }
{
    site.redo.is_none() && site.incarnation == reply.incarnation
}
