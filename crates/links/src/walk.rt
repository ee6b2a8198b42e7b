// Looking up a child, and the walk along the links.

ghost use Rattle.std.specs.Prelude.{◌≡◌, ◌+◌, ◌<◌, ◌&&◌, [], ◌∷◌, ◌++◌, vec_len, ◌==◌, IfSome, IfNone};
ghost use Rattle.matching.specs.Match.{link as link_of};
ghost use Rattle.links_theory.specs.Entries.{Complete, Found, node_at, path, Walked};
ghost use Rattle.links.specs.Tables.{cues_in, SoundIn};

use crate::table::{Table, slot};
use links_theory::Node;

// Where a walk ended, and its trials (textbook: goto tests).
#[derive(Clone, Copy, PartialEq, Eq, Debug)]
pub(crate) struct Walk {
    pub(crate) at: u16,
    pub(crate) trials: u32,
}

// Whether an entry is the child of `parent` by `sign`.
fn is_child(node: Node, parent: u16, sign: u16) -> bool
    ensures { result ≡ (node.parent == parent && node.sign == sign) }
{
    (node.parent, node.sign) == (parent, sign)
}

// What holds of the entries is required, not part of the type: it does not hold before `begin`, nor
// between `add` and `set_link`.
impl Table {
    // The child of an entry by a sign.
    pub(crate) fn child(&self, parent: u16, sign: u16) -> Option<u16>
        requires { SoundIn self.now }
        ensures some { IfSome result (λ at. (0 < at) × Found self.now.nodes.items parent sign at) }
        ensures none { IfNone result (Found self.now.nodes.items parent sign 0) }
    {
        let mut at = self.heads[slot(parent, sign)];
        while at != 0 {
            let node = self.node(at);
            if is_child(node, parent, sign) {
                return Some(at);
            }
            at = node.next;
        }
        None
    }

    // From an entry along the links to the first with a child by the sign: that child, or the empty
    // beginning. Each look-up is one trial.
    pub(crate) fn walk(&self, from: u16, sign: u16) -> Walk
        requires sound { SoundIn self.now }
        requires within { from < vec_len self.now.nodes }
        requires full { Complete (cues_in self.now) self.now.nodes.items ((node_at self.now.nodes.items from).len + 1) }
        ensures { Walked (cues_in self.now) self.now.nodes.items from sign result.at result.trials }
    {
        let mut at = from;
        let mut trials = 0u32;
        loop {
            trials += 1;
            if let Some(child) = self.child(at, sign) {
                return Walk { at: child, trials };
            }
            if at == 0 {
                return Walk { at: 0, trials };
            }
            at = self.node(at).link;
        }
    }

    // The link of the child of an entry by a sign, whether that child is there yet or not.
    pub(crate) fn link_from(&self, parent: u16, sign: u16) -> u16
        requires sound { SoundIn self.now }
        requires within { parent < vec_len self.now.nodes }
        requires full { Complete (cues_in self.now) self.now.nodes.items (node_at self.now.nodes.items parent).len }
        ensures within { result < vec_len self.now.nodes }
        ensures link { path (cues_in self.now) self.now.nodes.items result ≡ link_of (cues_in self.now) (path (cues_in self.now) self.now.nodes.items parent ++ sign ∷ []) }
    {
        if parent == 0 {
            return 0;
        }
        let link = self.node(parent).link;
        self.walk(link, sign).at
    }
}
