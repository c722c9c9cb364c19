// The layers of settings above a port's default.
use bulk_base::Texts;

/// The options that each layer turns on and off, the later layers over the earlier ones (bsd.options.mk).
#[derive(Debug, Drop)]
pub struct Layers {
    /// OPTIONS_SET of make.conf.
    pub global_set: Texts,
    /// OPTIONS_UNSET of make.conf.
    pub global_unset: Texts,
    /// The port's own words that make.conf turns on.
    pub port_set: Texts,
    /// The port's own words that make.conf turns off.
    pub port_unset: Texts,
    /// OPTIONS_FILE_SET of the port's options file.
    pub file_set: Texts,
    /// OPTIONS_FILE_UNSET of the port's options file.
    pub file_unset: Texts,
}
