//! `Fitting`, a configuration of which a node can be made.
ghost use Rattle.std.specs.Prelude.{◌≡◌, ◌≤◌, true};
ghost use Rattle.p2p_peer_shared.specs.Sizing.{sizes_fit};

use super::HasSizes;
use std::marker::Model;

/// A configuration whose sizes fit, so that a node can be made of it.
#[derive(Drop)]
pub struct Fitting<C: HasSizes> {
    cfg: C,
}

impl<C: HasSizes> Model for Fitting<C> {
    ghost use Rattle.std.specs.Prelude.{◌≡◌, true};
    ghost use Rattle.p2p_peer_shared.specs.Sizing.{sizes_fit};

    ghost Value = { C };

    ghost view = { λ f. f.cfg };

    ghost invariant = { λ f. sizes_fit (C.sizes f.cfg) ≡ true };
}

impl<C: HasSizes> Fitting<C> {
    /// This configuration. `fit` of its sizes tells whether they fit.
    pub fn new(cfg: C) -> Fitting<C>
        requires { sizes_fit (C.sizes cfg) ≡ true }
        ensures { result ≡ cfg }
    {
        Fitting { cfg }
    }

    /// The configuration.
    #[tactic(auto, using(crate::proofs::Fits::one_message, crate::proofs::Fits::one_frame))]
    pub fn cfg(&self) -> &C
        ensures value { result.now ≡ self.now }
        ensures mailbox { 1 ≤ (C.sizes self.now).mailbox_size }
        ensures batch { 1 ≤ (C.sizes self.now).send_batch_size }
    {
        &self.cfg
    }
}
