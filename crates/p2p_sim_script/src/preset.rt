//! The presets of a configuration.
ghost use Rattle.std.specs.Prelude.{◌≡◌};
ghost use Rattle.p2p_sim_script.specs.View.{view};
ghost use Rattle.p2p_sim_script.specs.Presets.{preset_of, preset_config};

use crate::value::Value;
use p2p_base::Key;
use p2p_log::Config;

/// Which call of `Config` gives what a configuration doesn't say.
#[derive(Clone, Copy)]
pub enum Preset {
    /// `Config::local`.
    Local,
    /// `Config::recommended`.
    Recommended,
}

/// The preset that `tree` names.
pub(crate) fn read_preset(tree: &Value) -> Option<Preset>
    ensures { result ≡ preset_of (view tree.now) }
{
    match tree.as_str()? {
        "local" => Some(Preset::Local),
        "recommended" => Some(Preset::Recommended),
        _ => None,
    }
}

impl Preset {
    /// The configuration of this key and these sizes that the preset gives.
    pub(crate) fn config(
        self,
        public_key: Key,
        max_peers_per_set: usize,
        max_message_size: u32,
        mailbox_size: usize,
    ) -> Config
        ensures { result ≡ preset_config self public_key max_peers_per_set max_message_size mailbox_size }
    {
        match self {
            Preset::Local => {
                Config::local(
                    public_key,
                    max_peers_per_set,
                    max_message_size,
                    mailbox_size,
                )
            }
            Preset::Recommended => {
                Config::recommended(
                    public_key,
                    max_peers_per_set,
                    max_message_size,
                    mailbox_size,
                )
            }
        }
    }
}
