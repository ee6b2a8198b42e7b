// The watch above the link engine: the bound on its trials.

#![tactic(auto)]

ghost use Rattle.std.specs.Prelude.{◌≡◌};
ghost use Rattle.links.specs.contracts.link_engine.calls.LinkEngineEngine.TheImpl.{ghosts};
ghost use Rattle.watch.specs.After.{Always, WorkBound};

use links::LinkEngine;
use watch::Watch;

// The trials since the last granted load, restart or resume: after every list of calls at most twice
// the signs taken since and the length then resumed, less the length of the standing.
pub fn trials(watch: &Watch<LinkEngine>) -> u32
    ensures value { result ≡ watch.now.engine.trials }
    ensures bound { Always ghosts watch.now (WorkBound result) }
{
    watch.engine().trials()
}
