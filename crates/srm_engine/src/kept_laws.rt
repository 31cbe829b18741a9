//! The law by which what a watch keeps goes on from window to window.
ghost use Rattle.srm_engine.specs.KeptMembers.{KeptGoesOn};

use srm_interfaces::watch::Watch;

/// What a watch kept of each member's rows of some, with those of its own run in a window, it keeps of these and the window's.
pub fn kept_goes_on<K, W: Watch<K>>(watch: &W)
    ensures { KeptGoesOn (W.keeps watch.now) }
{
    let _watch = watch;
}
