use crate::unfit::Unfit;
use oc_config::Config;

/// What a look at the file of the configuration gives, once its bytes were read.
#[derive(Drop)]
pub enum Reread {
    /// Nothing new.
    Nothing,
    /// This configuration.
    Config(Config),
    /// No configuration, for this reason.
    Unfit(Unfit),
}
